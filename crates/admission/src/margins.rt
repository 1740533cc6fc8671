// Margins (document 01: "due tick minus that total, a whole number that may be below zero").
ghost use Rattle.std.specs.Prelude.{◌≡◌, ◌<◌, ◌≤◌, length};
ghost use Rattle.model.specs.declared.Order as order;
ghost use Rattle.model.specs.Limits.{max_live};
ghost use Rattle.model.specs.DelayBound.{bound_tick, margin};
ghost use Rattle.schedule.specs.Valid.{◌∈◌};
ghost use Rattle.admission.specs.Margins.{MarginFits, Tryable, Tries};

use super::interference::{joined_by, larger_row};
use model::{Block, Order};
use soundness::row_figures::largest;
use soundness::row_limits::Limits;

// Acceptance tick + delay bound (document 01: delay sum), and a margin: an order's own, or in the answer to an offer the
// smallest.
#[derive(Clone, Copy, Debug, PartialEq, Eq)]
pub struct Figures {
    pub tick: u32,
    pub margin: i32,
}

impl Figures {
    // Of an order by itself: its margin is the due tick minus that total. Ticks do not fit an i32, their difference does.
    // Neither the last station's maximum added nor the due tick in the place of the acceptance tick meets the promise.
    #[tactic(auto, unfolding(model::specs::DelayBound::bound_tick, model::specs::DelayBound::delay_bound, model::specs::DelayBound::margin))]
    pub fn of(limits: Limits, o: Order) -> Figures
        requires { MarginFits limits.n o }
        ensures tick_is { result.tick ≡ bound_tick limits.n o }
        ensures margin_is { result.margin ≡ margin limits.n o }
    {
        let tick = o.accepted + (o.sum + limits.counted_total(o.maxima));
        // With `checked_signed_diff` in its place the two tests of an overflow stay in the code, for every live order.
        Figures {
            tick,
            margin: (i64::from(o.due) - i64::from(tick)) as i32,
        }
    }
}

// What the live orders come to with an arrival: its interference set, and their smallest margin.
#[derive(Clone, Copy, Debug, PartialEq, Eq)]
pub struct Tried {
    pub sum: u32,
    pub maxima: [u16; 8],
    pub least: i32,
}

// Goes once over the live orders: the arrival's set is itself and them, by their own costs, and each of them is tried with
// the arrival in its own set. Neither stored maxima in the place of the live orders' costs, nor a live order left untried,
// meets the promise.
pub fn try_all(limits: Limits, b: Block, orders: &[Order]) -> Tried
    requires few { length orders.now ≤ max_live }
    requires tryable { (o : order.Order) → o ∈ orders.now → Tryable limits.n b o }
    ensures { Tries limits.n b orders.now result }
{
    let top = largest(b.costs);
    let mut sum = top;
    let mut maxima = b.costs;
    let mut least = i32::MAX;
    for o in orders {
        // No live order has ticket 0. A loop that may end here is compiled record by record, eight entries together; without
        // the test four records are taken together, entry by entry, which takes twice as long.
        if o.ticket == 0 {
            break;
        }
        sum += largest(o.costs);
        let wider = larger_row(o.costs, maxima);
        maxima = wider;
        least = least.min(Figures::of(limits, joined_by(b, top, *o)).margin);
    }
    Tried { sum, maxima, least }
}
