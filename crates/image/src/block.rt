// "An order block is 28 bytes: due-in (4), eight ranks, eight costs (2 each)."
ghost use Rattle.std.specs.Prelude.{◌≡◌};
ghost use Rattle.model.specs.Admission.{block_bytes};

use super::layout::{BLOCK_COSTS_AT, BLOCK_DUE_IN_AT, BLOCK_RANKS_AT, BLOCK_SIZE};
use super::writer::{put, put_rows, put_u32};
use model::Block;

// The block of an order. Ruled out: the costs before the ranks; a due-in in two bytes.
pub fn order_block(b: Block) -> [u8; BLOCK_SIZE]
    ensures { result ≡ block_bytes b }
{
    let mut block = [0u8; BLOCK_SIZE];
    put_u32(&mut block, BLOCK_DUE_IN_AT, b.due_in);
    put(&mut block, BLOCK_RANKS_AT, b.ranks);
    put_rows(&mut block, BLOCK_COSTS_AT, &b.costs);
    block
}
