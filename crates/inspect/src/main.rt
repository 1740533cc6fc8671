// Reads an image from standard input and writes to standard output what there is to say of it. It changes nothing. What it
// writes of the bytes that it read is `explained` of the crate `image_text`.
#![tactic(auto)]

use image::layout::IMAGE_SIZE;

// One byte more than an image has, so that a longer input is seen to be longer.
const MOST: usize = IMAGE_SIZE + 1;

fn main(rt: HostRuntime) {
    let mut input = [0u8; MOST];
    let size = console::read_full(&mut rt.stdin(), &mut input);
    let mut out = [0u8; 8192];
    let end = image_text::explanation::explain(&input[..size], &mut out);
    console::write_all(&mut rt.stdout(), &out[..end]);
}
