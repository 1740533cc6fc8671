// The bytes of a log, chunk by chunk: "A program reads one from standard input", of any length.
ghost use Rattle.std.specs.Prelude.{◌≡◌};
ghost use Rattle.log_model.specs.Reading.{begun, fed_all};

use image::layout::IMAGE_SIZE;
use log_lines::Running;
use log_model::limits::MAX_LINE;
use log_model::{Reading, Rerun};

const LINE_FEED: u8 = b'\n';

// Before the first byte. Ruled out: lines that count from 0; a line that has begun.
pub fn begin() -> Reading
    ensures { result ≡ begun }
{
    let rerun = Rerun {
        line: 1,
        stations: 0,
        refused: 0,
        differs: 0,
        ticks: 0,
        busy: [0; 8],
    };
    Reading {
        rerun,
        pending: [0; MAX_LINE],
        held: 0,
    }
}

// The bytes of a chunk in turn: one is held while there is room, and a line feed ends a line. Ruled out: a line feed held as a byte
// of a line; a line that two chunks share cut in two; 221 bytes of a line, or 219 of 220.
pub fn feed(s: Reading, image: &mut [u8; IMAGE_SIZE], chunk: &[u8]) -> Reading
    ensures { record { reading = result; image = image.new } ≡ fed_all (record { reading = s; image = image.old }) chunk.now }
{
    let mut log = Running {
        rerun: s.rerun,
        image,
    };
    let mut pending = s.pending;
    let mut held = s.held;
    for b in chunk {
        if *b == LINE_FEED {
            log.line_ended(&pending[..held.min(MAX_LINE)]);
            held = 0;
        } else if held < MAX_LINE {
            pending[held] = *b;
            held += 1;
        }
    }
    Reading {
        rerun: log.rerun,
        pending,
        held,
    }
}
