// What may stand at each place of a row, as rows of numbers: a test of a row against them goes place by place in the same
// way at every place, and a compiler takes eight places together.
ghost use Rattle.std.specs.Prelude.{◌≡◌, ◌-◌, ◌≤◌, take};
ghost use Rattle.model.specs.Limits.{max_stations};
ghost use Rattle.model.specs.Lists.{total};
ghost use Rattle.soundness.specs.RowLimits.{first_places, Made};

use model::limits::MAX_COST;

// For a pipeline of n stations.
#[derive(Clone, Copy)]
pub struct Limits {
    pub n: u32,
    pub least: [u16; 8], // of a cost: 1, and 0 beyond n
    pub most: [u16; 8], // of a maximum: 6,000, and 0 beyond n
    pub counted: [u16; 8], // every bit of a maximum before n, which counts in the delay bound, and none from n on
    pub ghost made: { Made n least most counted },
}

// x at the first `count` places and 0 at the others: eight places of a table of both. With a test of k in its place a
// compiler takes each row apart again wherever it is used.
fn first_places(count: usize, x: u16) -> [u16; 8]
    requires { count ≤ max_stations }
    ensures { result ≡ first_places count x }
{
    let table = [x, x, x, x, x, x, x, x, 0, 0, 0, 0, 0, 0, 0, 0];
    std::array::from_fn(|k| table[8 - count + k])
}

impl Limits {
    // Neither 6,001 for a maximum nor station n among the places that count meets the promise.
    pub fn new(n: u32) -> Limits
        requires { (1 ≤ n) × (n ≤ max_stations) }
        ensures { result.n ≡ n }
    {
        Limits {
            n,
            least: first_places(n as usize, 1),
            most: first_places(n as usize, MAX_COST),
            counted: first_places((n - 1) as usize, u16::MAX),
        }
    }

    // The entries of the stations before n, added up: `before_last`, with the places that count as a row. Neither station n's
    // entry added nor station n - 1's left out meets the promise.
    pub fn counted_total(self, maxima: [u16; 8]) -> u32
        ensures { result ≡ total (take (self.n - 1) maxima) }
    {
        maxima
            .iter()
            .zip(self.counted.iter())
            .map(|(maximum, bits)| u32::from(*maximum & *bits))
            .sum()
    }
}
