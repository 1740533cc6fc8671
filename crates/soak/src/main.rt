// Long runs: in a pipeline of each number of stations, 12,500 calls that a generator draws, and a row of figures after every 500.
// The orders drawn, the digest, the counts and the rows are under contract in the crates that this calls, and so are the calls.
// What the program prints is compared with what the second simulator gives for the same calls (tests/gate/soak): no promise here
// speaks of a whole run.
#![tactic(auto)]

ghost use Rattle.std.specs.Prelude.{◌≤◌};
ghost use Rattle.model.specs.Limits.{max_stations};

use dispatcher::advance::dispatcher_advance;
use dispatcher::offer::{dispatcher_offer, dispatcher_quote};
use dispatcher::open::dispatcher_open;
use image::layout::{CLOCK_AT, IMAGE_SIZE, LIVE_COUNT_AT, REPLY_SIZE, REPLY_TICKET_AT};
use image::reader::u32_at;
use std::io::Write;
use trials::draw::{draw_order, pick, step};
use trials::soak_rows::{Run, fold_all, put_row};

// One pipeline (document 01: cabinet) of each number of stations.
const PIPELINES: usize = 8;

// Rows of a pipeline, and calls of a row.
const ROWS: u32 = 25;

const CALLS: u32 = 500;

// Which call is made.
#[derive(Clone, Copy, PartialEq, Eq)]
enum Kind {
    Advance,
    Quote,
    Offer,
}

// A pipeline of n stations: its image, the last reply, and what a run carries from call to call.
#[derive(Clone, Copy)]
struct Pipeline {
    n: usize,
    image: [u8; IMAGE_SIZE],
    reply: [u8; REPLY_SIZE],
    run: Run,
    ghost stations: { (1 ≤ n) × (n ≤ max_stations) },
}

// The call that a number below 16 stands for: so many of 16 are advances, few in one row, so that orders wait, and most in the
// next, so that they are served.
fn kind_of(run: Run, drawn: u32) -> Kind {
    let advances = if run.calls / CALLS % 2 == 0 { 6 } else { 14 };
    if drawn < advances {
        Kind::Advance
    } else if drawn == advances {
        Kind::Quote
    } else {
        Kind::Offer
    }
}

impl Pipeline {
    // The number of stations is also the seed.
    fn open(n: usize) -> Pipeline
        requires { (1 ≤ n) × (n ≤ max_stations) }
    {
        let mut image = [0; IMAGE_SIZE];
        let mut reply = [0; REPLY_SIZE];
        dispatcher_open(&mut image, n as u32, &mut reply);
        let run = Run::start(n as u32);
        Pipeline {
            n,
            image,
            reply,
            run,
        }
    }

    // Makes the call, with the order that the seed draws; its number.
    fn made(&mut self, kind: Kind, seed: u32) -> u32 {
        let order = draw_order(seed, self.n);
        match kind {
            Kind::Advance => dispatcher_advance(&mut self.image, &mut self.reply),
            Kind::Quote => dispatcher_quote(&self.image, &order, &mut self.reply),
            Kind::Offer => dispatcher_offer(&mut self.image, &order, &mut self.reply),
        }
    }

    // One call: the generator draws which, and then its order.
    fn call(&mut self) {
        let drawn = step(self.run.seed);
        let kind = kind_of(self.run, pick(drawn, 16));
        let seed = step(drawn);
        let number = self.made(kind, seed);
        let ticket = u32_at(&self.reply, REPLY_TICKET_AT);
        let accepted = (kind == Kind::Offer) & (number == 0);
        let out = (kind == Kind::Advance) & (number == 0) & (ticket != 0);
        let digest = fold_all(fold_all(self.run.digest, &self.reply), &self.image);
        self.run = self.run.count(seed, accepted, out, number, digest);
    }

    fn print<W: Write>(&self, output: &mut W) {
        let clock = u32_at(&self.image, CLOCK_AT);
        let live = u32::from(self.image[LIVE_COUNT_AT]);
        let mut out = [0; 160];
        let end = put_row(&mut out, self.run.values(self.n as u32, clock, live));
        console::write_all(output, &out[..end]);
    }
}

// All calls in a pipeline of n stations.
fn soak<W: Write>(output: &mut W, n: usize)
    requires { (1 ≤ n) × (n ≤ max_stations) }
{
    let mut pipeline = Pipeline::open(n);
    for call in 1..=ROWS * CALLS {
        pipeline.call();
        if call % CALLS == 0 {
            pipeline.print(output);
        }
    }
}

fn main(rt: HostRuntime) {
    let output = &mut rt.stdout();
    for n in 1..=PIPELINES {
        soak(output, n);
    }
}
