// Document 01, "Sound means", for the records of all live orders: what is wrong with a row is gathered place by place over
// all of them and asked for once.
ghost use Rattle.std.specs.Prelude.{◌≡◌, ◌&&◌, ℕ};
ghost use Rattle.model.specs.Lists.{all, is_zero};
ghost use Rattle.model.specs.Soundness.{zero_beyond};
ghost use Rattle.model.specs.DelayBound.{on_time};
ghost use Rattle.soundness.specs.RecordFlaws.{flaw_at};
ghost use Rattle.soundness.specs.Holds.{ticks_hold, rows_hold};

use super::records::{due_in_range, station_in_use};
use super::row_limits::Limits;
use model::Order;

// "the order on time", by what is left of the time to the due tick: in 32 bits, where a sum of all would need 64.
#[tactic(auto, using(crate::proofs::record_flaws::FlawLaws::on_time_is))]
fn on_time_within(l: Limits, o: Order) -> bool
    ensures { result ≡ on_time l.n o }
{
    let span = o.due.saturating_sub(o.accepted);
    (o.accepted <= o.due)
        & (o.sum <= span)
        & (l.counted_total(o.maxima) <= span.saturating_sub(o.sum))
}

// The clauses of a record's ticks and station. Neither "no" to an order that was accepted now nor "no" to one that has
// no tick to spare meets the promise.
#[tactic(auto, unfolding(crate::specs::Holds::ticks_hold))]
pub fn ticks_hold(l: Limits, clock: u32, o: Order) -> bool
    ensures { result ≡ ticks_hold l.n clock o }
{
    (o.accepted <= clock) & due_in_range(o) & station_in_use(l.n, o) & on_time_within(l, o)
}

// What is wrong at one place: by how much a cost is below the least, above its maximum or above the sum, and a maximum above
// the most.
fn flaw_at(least: u16, most: u16, cost: u16, maximum: u16, sum: u16) -> u16
    ensures { result ≡ flaw_at least most cost maximum sum }
{
    least.saturating_sub(cost)
        | cost.saturating_sub(maximum)
        | maximum.saturating_sub(most)
        | cost.saturating_sub(sum)
}

// The flaws of the rows so far with those of one record more. 0 at a place says that every cost there is at least the
// least, every maximum at least the cost and at most the most, and every sum at least the cost. Neither a cost of 0 at a
// station nor a cost above its maximum let through meets the promise.
pub fn flaws_with(flaws: [u16; 8], l: Limits, o: Order) -> [u16; 8]
    ensures { all is_zero result ≡ (all is_zero flaws && rows_hold l.n o) }
{
    // The sum beside costs: no cost is above 65,535.
    let sum = u16::try_from(o.sum).unwrap_or(u16::MAX);
    std::array::from_fn(|k| {
        flaws[k] | flaw_at(l.least[k], l.most[k], o.costs[k], o.maxima[k], sum)
    })
}

// Ranks of all records laid one over the other: 0 at a place says that every rank there is 0. Neither the last order's ranks
// alone nor what all ranks have in common meets the promise.
pub fn ranks_with(ranks: [u8; 8], o: Order) -> [u8; 8]
    ensures { (n : ℕ) → zero_beyond n result ≡ (zero_beyond n ranks && zero_beyond n o.ranks) }
{
    std::array::from_fn(|k| ranks[k] | o.ranks[k])
}
