// Which clause of document 01's "Sound means" an image breaks first: what refuses an image is `soundness`, and this explains
// the refusal.
ghost use Rattle.std.specs.Prelude.{◌≡◌};
ghost use Rattle.model.specs.Image.{orders_of};
ghost use Rattle.image_text.specs.Records.{tests_of_all};
ghost use Rattle.image_text.specs.FirstFlaw.{later_clauses, first_failing, first_flaw};

use image::decode::order_at;
use image::layout::{CLOCK_AT, IMAGE_SIZE, LIVE_COUNT_AT, STATION_COUNT_AT};
use image::reader::u32_at;
use model::limits::{LAST_TICK, MAX_LIVE, MAX_STATIONS};
use soundness::counted::Counted;
use soundness::records::{Tests, tested};

// The clauses, in document 01's order.
#[derive(Clone, Copy, Debug, PartialEq, Eq)]
pub enum Flaw {
    StationCount,
    LiveCount,
    Clock,
    ZeroBytes,
    UnusedRecords,
    Tickets,
    Acceptance,
    Due,
    Station,
    Costs,
    Maxima,
    Sum,
    OnTime,
    Beyond,
    Services,
}

// The clauses that are asked of each live order, over all of them in one pass. Neither a clause that the last order alone
// breaks let through, nor one held against the wrong clause, meets the promise.
fn all_tested(counted: Counted<'_>, clock: u32) -> Tests
    ensures { result ≡ tests_of_all counted.entry.n clock (orders_of counted.entry.image.now counted.entry.live) }
{
    let mut tests = Tests {
        accepted: true,
        due: true,
        station: true,
        costs: true,
        maxima: true,
        sum: true,
        on_time: true,
        beyond: true,
    };
    for i in 0..counted.live {
        tests = tests & tested(counted.n, clock, order_at(counted.image, i));
    }
    tests
}

// The clauses after the counts, with these in range: each is what its own function says, beside its name.
fn later_clauses(counted: Counted<'_>) -> [(bool, Flaw); 13]
    ensures { result ≡ later_clauses counted.entry.image.now }
{
    let image = counted.image;
    let clock = u32_at(image, CLOCK_AT);
    let tests = all_tested(counted, clock);
    [
        (clock <= LAST_TICK, Flaw::Clock),
        (counted.zero_bytes_zero(), Flaw::ZeroBytes),
        (counted.unused_records_zero(), Flaw::UnusedRecords),
        (counted.tickets_in_order(), Flaw::Tickets),
        (tests.accepted, Flaw::Acceptance),
        (tests.due, Flaw::Due),
        (tests.station, Flaw::Station),
        (tests.costs, Flaw::Costs),
        (tests.maxima, Flaw::Maxima),
        (tests.sum, Flaw::Sum),
        (tests.on_time, Flaw::OnTime),
        (tests.beyond & counted.idle_beyond(), Flaw::Beyond),
        (counted.services_in_order(), Flaw::Services),
    ]
}

// The first of these that fails.
fn first_failing(clauses: &[(bool, Flaw)]) -> Option<Flaw>
    ensures { result ≡ first_failing clauses.now }
{
    for (holds, flaw) in clauses {
        if !holds {
            return Some(*flaw);
        }
    }
    None
}

// The first clause of soundness that an image breaks, if it breaks one. Neither a later clause named in the place of an
// earlier one nor a broken one left unnamed meets the promise.
pub fn first_flaw(image: &[u8; IMAGE_SIZE]) -> Option<Flaw>
    ensures { result ≡ first_flaw image.now }
{
    let n = u32::from(image[STATION_COUNT_AT]);
    if (n < 1) | (MAX_STATIONS < n) {
        return Some(Flaw::StationCount);
    }
    let live = image[LIVE_COUNT_AT];
    if MAX_LIVE < live {
        return Some(Flaw::LiveCount);
    }
    let live = usize::from(live);
    first_failing(&later_clauses(Counted { image, n, live }))
}
