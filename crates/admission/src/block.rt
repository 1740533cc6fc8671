// An order block (document 01: "28 bytes: due-in (4), eight ranks, eight costs (2 each)"), and what is asked of it alone.
ghost use Rattle.std.specs.Prelude.{◌≡◌, cond, ◌&&◌, ◌<◌, length};
ghost use Rattle.model.specs.Limits.{default_due_in};
ghost use Rattle.model.specs.Lists.{is_zero};
ghost use Rattle.model.specs.Layout.{block_size};
ghost use Rattle.model.specs.Soundness.{costs_in_range, zero_beyond};
ghost use Rattle.model.specs.Admission.{block_of, due_of};

use image::layout::{BLOCK_COSTS_AT, BLOCK_DUE_IN_AT, BLOCK_RANKS_AT, BLOCK_SIZE};
use image::reader::{eight_bytes_at, eight_halves_at, u32_at};
use model::Block;
use model::limits::DEFAULT_DUE_IN;

// What a block says. Neither the due-in read from the ranks nor ranks read from the costs meet the promise.
#[tactic(auto, unfolding(model::specs::Admission::block_of))]
pub fn block_of(order: &[u8; BLOCK_SIZE]) -> Block
    ensures { result ≡ block_of order.now }
{
    Block {
        due_in: u32_at(order, BLOCK_DUE_IN_AT),
        ranks: eight_bytes_at(order, BLOCK_RANKS_AT),
        costs: eight_halves_at(order, BLOCK_COSTS_AT),
    }
}

// Question 6: "Costs of stations 1 to N in range, costs and ranks beyond N zero?" Neither a cost of 0 let through nor a rank
// beyond N meets the promise.
pub fn fits(n: u32, b: Block) -> bool
    ensures { result ≡ (costs_in_range n b.costs && zero_beyond n b.costs && zero_beyond n b.ranks) }
{
    soundness::rows::costs_in_range(n, b.costs)
        & soundness::rows::zero_beyond(n, b.costs)
        & soundness::rows::zero_beyond(n, b.ranks)
}

fn or_default(due_in: u32) -> u64
    ensures { result ≡ cond (is_zero due_in) default_due_in due_in }
{
    if due_in == 0 {
        DEFAULT_DUE_IN
    } else {
        u64::from(due_in)
    }
}

// "Due tick = tick of acceptance + due-in.", and 0 stands for the default. In 64 bits, since in 32 the sum can wrap. Neither
// the due-in alone nor 0 taken as it is meets the promise.
#[tactic(auto, unfolding(model::specs::Admission::due_of))]
pub fn due_tick(accepted: u32, b: Block) -> u64
    ensures { result ≡ due_of accepted b }
{
    u64::from(accepted) + or_default(b.due_in)
}
