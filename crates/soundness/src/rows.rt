// Document 01, "Sound means", for a row of eight entries, of which the first n are in use. A test goes over all eight, whatever
// n is and whether or not one has failed, so that a compiler needs no branch: with the library's `all`, `take` and `skip`, here
// and in `services`, questions 1 to 4 of an image without orders took 16 % longer.
ghost use Rattle.std.specs.Prelude.{◌≡◌, drop};
ghost use Rattle.model.specs.Soundness.{costs_in_range};
ghost use Rattle.model.specs.Lists.{all};
ghost use Rattle.soundness.specs.Rows.{maxima_hold};

use model::limits::MAX_COST;

// "costs in range"
pub fn costs_in_range(n: u32, costs: [u16; 8]) -> bool
    ensures { result ≡ costs_in_range n costs }
{
    let mut holds = true;
    for (k, cost) in costs.iter().enumerate() {
        holds &= (n as usize <= k) | ((1 <= *cost) & (*cost <= MAX_COST));
    }
    holds
}

// "each maximum at least the own cost and at most 6,000"
pub fn maxima_in_range(n: u32, costs: [u16; 8], maxima: [u16; 8]) -> bool
    ensures { result ≡ maxima_hold n costs maxima }
{
    let mut holds = true;
    for (k, maximum) in maxima.iter().enumerate() {
        holds &= (n as usize <= k) | ((costs[k] <= *maximum) & (*maximum <= MAX_COST));
    }
    holds
}

// No entry beyond n but 0: of ranks, costs or maxima. What it says of a row of numbers is the law `numbers_beyond`.
pub fn zero_beyond<T: Copy + Default + PartialEq>(n: u32, row: [T; 8]) -> bool
    ensures { (zero : T) × T.is_default zero × (result ≡ all (λ x. T.eq x zero) (drop n row)) }
{
    let zero = T::default();
    let mut holds = true;
    for (k, x) in row.iter().enumerate() {
        holds &= (k < n as usize) | (*x == zero);
    }
    holds
}
