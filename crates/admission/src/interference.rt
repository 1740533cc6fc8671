// What a member adds to an interference set (document 01: company): "the largest station cost of each member, added up", and
// "the largest cost any member has" at each station.
ghost use Rattle.std.specs.Prelude.{◌≡◌, ◌+◌, ◌<◌};
ghost use Rattle.model.specs.Lists as lists;
ghost use Rattle.model.specs.Admission.{joined_by};

use model::{Block, Order};
use std::array;

// The larger of two rows' entries, place by place. Neither 0 at the eighth place nor the smaller entries meet the promise.
pub fn larger_row(a: [u16; 8], b: [u16; 8]) -> [u16; 8]
    ensures { result ≡ lists.larger a b }
{
    array::from_fn(|k| a[k].max(b[k]))
}

// A live order with the arrival in its set. `top` is the arrival's largest cost, the same for every live order. Neither its
// maxima from before nor its sum from before meets the promise.
#[tactic(auto, unfolding(model::specs::Admission::joined_by))]
pub fn joined_by(b: Block, top: u32, o: Order) -> Order
    requires { (top ≡ lists.largest b.costs) × (top + o.sum < 4294967296) }
    ensures { result ≡ joined_by b o }
{
    Order {
        sum: top + o.sum,
        maxima: larger_row(b.costs, o.maxima),
        ..o
    }
}
