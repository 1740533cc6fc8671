// Reads a log from standard input, of any length, reruns it and writes what there is to say of it to standard output. Of the bytes that it
// read, whatever the chunks were, that is `printed` of the crate `log_model`.
#![tactic(auto)]

ghost use Rattle.log_model.specs.Reading.{begun};
ghost use Rattle.log_reader.specs.Reached.{Reached};

use image::layout::IMAGE_SIZE;
use log_model::Reading;
use log_reader::feed::{begin, feed};
use log_reader::print::print;
use std::io::Read;

// So much of a log is read at a time: with less, a long one would spend its time on the calls that read.
const CHUNK: usize = 65536;

// Reads to the end. A read that fails is the end, and so is one that gives nothing. A proved loop has to end, so it counts its turns, up to a number
// that no run uses up. Ruled out: a state that is reached from another start; one that no bytes lead to, as the state before with an image that has
// changed.
fn read_all<R: Read>(input: &mut R, image: &mut [u8; IMAGE_SIZE]) -> Reading
    ensures { Reached (record { reading = begun; image = image.old }) (record { reading = result; image = image.new }) }
{
    let mut buf = [0; CHUNK];
    let mut s = begin();
    for _ in 0..u64::MAX {
        let n = console::read_some(input, &mut buf);
        if n == 0 {
            break;
        }
        s = feed(s, image, &buf[..n]);
    }
    s
}

fn main(rt: HostRuntime) {
    let mut image = [0; IMAGE_SIZE];
    let s = read_all(&mut rt.stdin(), &mut image);
    let mut out = [0; 256];
    let end = print(s, &mut out);
    console::write_all(&mut rt.stdout(), &out[..end]);
}
