// Reads a standing table from standard input and writes its figures to standard output. It only reads and writes: what it
// writes of the bytes that it read is `plan_output` of the crate `plan_model`.
#![tactic(auto)]

use plan_model::limits::MAX_INPUT;

// One byte more than an input may have, so that a longer input is seen to be longer.
const MOST: usize = MAX_INPUT + 1;

fn main(rt: HostRuntime) {
    let mut input = [0u8; MOST];
    let size = console::read_full(&mut rt.stdin(), &mut input);
    let mut out = [0u8; 1024];
    let end = plan_text::print::print_plan(&input[..size], &mut out);
    console::write_all(&mut rt.stdout(), &out[..end]);
}
