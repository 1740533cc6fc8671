// Document 01, "Sound means", for one live order's record: each clause a function, and all of them by name.

ghost use Rattle.std.specs.Prelude.{◌≡◌};
ghost use Rattle.model.specs.Soundness.{due_in_range, station_in_use, sum_in_range, record_zero_beyond};
ghost use Rattle.model.specs.DelayBound.{on_time};
ghost use Rattle.soundness.specs.Records.{tests_of, both_of};

use super::row_figures::{before_last, largest};
use super::rows::{costs_in_range, maxima_in_range, zero_beyond};
use model::Order;
use model::limits::{LAST_TICK, MAX_DUE_IN};
use std::ops::BitAnd;

// The clauses of one record, or of several together.
#[derive(Clone, Copy, Debug, PartialEq, Eq)]
pub struct Tests {
    pub accepted: bool,
    pub due: bool,
    pub station: bool,
    pub costs: bool,
    pub maxima: bool,
    pub sum: bool,
    pub on_time: bool,
    pub beyond: bool,
}

// "due tick 1 to 60,000 after acceptance and at most 4,000,000,000", by the time to the due tick.
#[tactic(auto, using(crate::proofs::Facts::span_in_range), unfolding(model::specs::Soundness::due_in_range))]
pub fn due_in_range(o: Order) -> bool
    ensures { result ≡ due_in_range o }
{
    let span = o.due.saturating_sub(o.accepted);
    (1 <= span) & (u64::from(span) <= MAX_DUE_IN) & (o.due <= LAST_TICK)
}

// "station 1 to N"
#[tactic(auto, unfolding(model::specs::Soundness::station_in_use))]
pub fn station_in_use(n: u32, o: Order) -> bool
    ensures { result ≡ station_in_use n o }
{
    (1 <= o.station) & (o.station <= n)
}

// "the sum at least the own largest cost"
#[tactic(auto, unfolding(model::specs::Soundness::sum_in_range))]
fn sum_in_range(o: Order) -> bool
    ensures { result ≡ sum_in_range o }
{
    largest(o.costs) <= o.sum
}

// "the order on time": acceptance tick, stored sum and the sum of the maxima are added up in 64 bits, since in 32 they can
// wrap.
#[tactic(auto, unfolding(model::specs::DelayBound::on_time, model::specs::DelayBound::bound_tick, model::specs::DelayBound::delay_bound))]
fn on_time(n: u32, o: Order) -> bool
    ensures { result ≡ on_time n o }
{
    u64::from(o.accepted) + (u64::from(o.sum) + u64::from(before_last(n, o.maxima)))
        <= u64::from(o.due)
}

// "fields beyond N zero", of a record.
fn record_zero_beyond(n: u32, o: Order) -> bool
    ensures { result ≡ record_zero_beyond n o }
{
    zero_beyond(n, o.ranks) & zero_beyond(n, o.costs) & zero_beyond(n, o.maxima)
}

// Every clause of a record, in a pipeline of n stations whose clock shows `clock`. Neither an order accepted now refused
// nor one that is out on its due tick meets the promise.
#[tactic(auto, unfolding(crate::specs::Records::tests_of, model::specs::Soundness::maxima_in_range, crate::specs::Rows::maxima_hold))]
pub fn tested(n: u32, clock: u32, o: Order) -> Tests
    ensures { result ≡ tests_of n clock o }
{
    Tests {
        accepted: o.accepted <= clock,
        due: due_in_range(o),
        station: station_in_use(n, o),
        costs: costs_in_range(n, o.costs),
        maxima: maxima_in_range(n, o.costs, o.maxima),
        sum: sum_in_range(o),
        on_time: on_time(n, o),
        beyond: record_zero_beyond(n, o),
    }
}

// The clauses that hold in both.
impl BitAnd for Tests {
    type Output = Tests;

    ghost bitand_gives = { λ a b both. both ≡ both_of a b };

    #[tactic(auto, unfolding(crate::specs::Records::both_of))]
    fn bitand(self, other: Tests) -> Tests {
        Tests {
            accepted: self.accepted & other.accepted,
            due: self.due & other.due,
            station: self.station & other.station,
            costs: self.costs & other.costs,
            maxima: self.maxima & other.maxima,
            sum: self.sum & other.sum,
            on_time: self.on_time & other.on_time,
            beyond: self.beyond & other.beyond,
        }
    }
}
