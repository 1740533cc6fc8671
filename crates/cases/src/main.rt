// Document 01's worked cases, and those of document 02, (i), (iii) and (v), made by the calls themselves, a line for each call. The stored output
// is written by hand from the papers' figures, and no program made it. This one only makes the calls and writes: what it prints of a reply is
// `reply_line` of the crate `trials`, of an image `explained` of the crate `image_text`, and of a table `plan_output` of the
// crate `plan_model`.
#![tactic(auto)]

ghost use Rattle.std.specs.Prelude.{◌≤◌, length};

use dispatcher::advance::dispatcher_advance;
use dispatcher::format::{dispatcher_offer_format, dispatcher_quote_format};
use dispatcher::offer::{dispatcher_offer, dispatcher_quote};
use dispatcher::open::dispatcher_open;
use image::block::order_block;
use image::layout::{IMAGE_SIZE, REPLY_SIZE, SHEET_SIZE};
use image_text::explanation::explain;
use model::Block;
use plan_text::print::print_plan;
use std::io::Write;
use trials::case_lines::put_reply_line;

// Paper format, due-in and rank of an order by format.
#[derive(Clone, Copy)]
struct ByFormat {
    format: u32,
    due_in: u32,
    rank: u8,
}

// A step of a case: a call, so many advances, or what the image says then.
#[derive(Clone, Copy)]
enum Step {
    Quote(Block),
    Offer(Block),
    QuoteFormat(ByFormat),
    OfferFormat(ByFormat),
    Advance(u32),
    Show,
}

// Two stations with 0 and 1 fixed ticks, and 250 millimetres per tick.
fn sheet() -> [u8; SHEET_SIZE] {
    let mut sheet = [0; SHEET_SIZE];
    sheet[2] = 1;
    sheet[16] = 250;
    sheet[18] = 250;
    sheet
}

// The line of a call.
fn say<W: Write>(output: &mut W, call: &[u8], reply: &[u8; REPLY_SIZE])
    requires { length call.now ≤ 8 }
{
    let mut out = [0; 128];
    let end = put_reply_line(&mut out, call, reply);
    console::write_all(output, &out[..end]);
}

fn advance<W: Write>(output: &mut W, image: &mut [u8; IMAGE_SIZE], ticks: u32) {
    let mut reply = [0; REPLY_SIZE];
    for _ in 0..ticks {
        dispatcher_advance(image, &mut reply);
        say(output, b"advance", &reply);
    }
}

// What the image says.
fn show<W: Write>(output: &mut W, image: &[u8; IMAGE_SIZE]) {
    let mut out = [0; 8192];
    let end = explain(image, &mut out);
    console::write_all(output, &out[..end]);
}

fn take<W: Write>(output: &mut W, image: &mut [u8; IMAGE_SIZE], step: Step) {
    let mut reply = [0; REPLY_SIZE];
    match step {
        Step::Quote(order) => {
            dispatcher_quote(image, &order_block(order), &mut reply);
            say(output, b"quote", &reply);
        }
        Step::Offer(order) => {
            dispatcher_offer(image, &order_block(order), &mut reply);
            say(output, b"offer", &reply);
        }
        Step::QuoteFormat(o) => {
            dispatcher_quote_format(image, o.format, o.due_in, o.rank, &sheet(), &mut reply);
            say(output, b"quote", &reply);
        }
        Step::OfferFormat(o) => {
            dispatcher_offer_format(image, o.format, o.due_in, o.rank, &sheet(), &mut reply);
            say(output, b"offer", &reply);
        }
        Step::Advance(ticks) => advance(output, image, ticks),
        Step::Show => show(output, image),
    }
}

// A case: a cabinet of so many stations, and the steps in turn.
fn run<W: Write>(output: &mut W, title: &[u8], stations: u32, steps: &[Step]) {
    console::write_all(output, title);
    let mut image = [0; IMAGE_SIZE];
    let mut reply = [0; REPLY_SIZE];
    dispatcher_open(&mut image, stations, &mut reply);
    say(output, b"open", &reply);
    for step in steps {
        take(output, &mut image, *step);
    }
}

// "X costs 2, 3 with rank 0; Y costs 1, 2 with rank 5."
fn x(due_in: u32, rank: u8) -> Block {
    Block {
        due_in,
        ranks: [rank, rank, 0, 0, 0, 0, 0, 0],
        costs: [2, 3, 0, 0, 0, 0, 0, 0],
    }
}

fn y(due_in: u32, rank: u8) -> Block {
    Block {
        due_in,
        ranks: [rank, rank, 0, 0, 0, 0, 0, 0],
        costs: [1, 2, 0, 0, 0, 0, 0, 0],
    }
}

// An order for one station.
fn single(due_in: u32, cost: u16) -> Block {
    Block {
        due_in,
        ranks: [0; 8],
        costs: [cost, 0, 0, 0, 0, 0, 0, 0],
    }
}

// An order for eight stations.
fn largest(due_in: u32) -> Block {
    Block {
        due_in,
        ranks: [0; 8],
        costs: [6000; 8],
    }
}

// An order for two stations, with 6,000 at the second.
fn pair(due_in: u32, cost: u16) -> Block {
    Block {
        due_in,
        ranks: [0; 8],
        costs: [cost, 6000, 0, 0, 0, 0, 0, 0],
    }
}

// Two orders at 0, and so many ticks.
fn two_orders<W: Write>(output: &mut W, title: &[u8], first: Block, second: Block, ticks: u32) {
    run(
        output,
        title,
        2,
        &[
            Step::Offer(first),
            Step::Offer(second),
            Step::Advance(ticks),
        ],
    );
}

// "the workshop needs a case on each side of 9,000": the delay sum is 6,000 + the cost at the first station. "lodges that relied
// on 18,000 write it out": beside an order that was accepted the second would make that one late.
fn side_of_default<W: Write>(output: &mut W, title: &[u8], cost: u16) {
    run(
        output,
        title,
        2,
        &[
            Step::Quote(pair(0, cost)),
            Step::Offer(pair(0, cost)),
            Step::Offer(pair(18000, cost)),
        ],
    );
}

// "X at 0 with due-in 20, one advance, then Y with rank 0 and due-in 7: Y starts at 2, not 1."
fn not_stopped<W: Write>(output: &mut W) {
    run(
        output,
        b"X due in 20, an advance, then Y due in 7 with rank 0\n",
        2,
        &[
            Step::Offer(x(20, 0)),
            Step::Advance(1),
            Step::Offer(y(7, 0)),
            Step::Advance(1),
            Step::Show,
            Step::Advance(1),
            Step::Show,
            Step::Advance(4),
        ],
    );
}

// "N = 1, cost 4: due-in 4 accepted, 3 gets 11." The decline comes first, and leaves the image alone.
fn one_station<W: Write>(output: &mut W) {
    run(
        output,
        b"one station, cost 4, due in 3 and in 4\n",
        1,
        &[
            Step::Offer(single(3, 4)),
            Step::Offer(single(4, 4)),
            Step::Advance(4),
        ],
    );
}

// "N = 8, all costs 6,000: delay sum 48,000; due-in 0 gets 11."
fn largest_costs<W: Write>(output: &mut W) {
    run(
        output,
        b"eight stations, costs 6000, no due-in, then due in 47999 and in 48000\n",
        8,
        &[
            Step::Offer(largest(0)),
            Step::Quote(largest(47999)),
            Step::Quote(largest(48000)),
            Step::Offer(largest(48000)),
        ],
    );
}

// "N = 1, 32 orders of cost 1, due-in 60,000; the next gets 10; after one advance it is accepted."
fn thirty_two<W: Write>(output: &mut W) {
    let mut steps = [Step::Offer(single(60000, 1)); 35];
    steps[33] = Step::Advance(1);
    run(
        output,
        b"one station, 33 orders of cost 1 due in 60000, an advance, one more\n",
        1,
        &steps,
    );
}

// The long side of A3 is 420 mm, 2 times 250 rounded up, so its costs are 0 + 2 and 1 + 2, those of X; that of A5 is 210 mm, and its
// costs are 0 + 1 and 1 + 1, those of Y. There is no format 11.
fn by_format<W: Write>(output: &mut W) {
    let a3 = ByFormat {
        format: 3,
        due_in: 20,
        rank: 0,
    };
    let a5 = ByFormat {
        format: 5,
        due_in: 7,
        rank: 5,
    };
    let none = ByFormat { format: 11, ..a5 };
    run(
        output,
        b"A3 due in 20, then A5 due in 7, by format\n",
        2,
        &[
            Step::QuoteFormat(a3),
            Step::OfferFormat(a3),
            Step::OfferFormat(a5),
            Step::OfferFormat(none),
            Step::Show,
            Step::Advance(7),
        ],
    );
}

fn table<W: Write>(output: &mut W, input: &[u8]) {
    let mut out = [0; 1024];
    let end = print_plan(input, &mut out);
    console::write_all(output, &out[..end]);
}

fn counter_cases<W: Write>(output: &mut W) {
    two_orders(
        output,
        b"X due in 20, then Y due in 7\n",
        x(20, 0),
        y(7, 5),
        7,
    );
    two_orders(
        output,
        b"X due in 20, then Y due in 6\n",
        x(20, 0),
        y(6, 5),
        0,
    );
    two_orders(
        output,
        b"X due in 6, then Y due in 100\n",
        x(6, 0),
        y(100, 5),
        0,
    );
    two_orders(
        output,
        b"X due in 20 with rank 5, then Y due in 7 with rank 0\n",
        x(20, 5),
        y(7, 0),
        6,
    );
    two_orders(
        output,
        b"X due in 20, then Y due in 7, both with rank 5\n",
        x(20, 5),
        y(7, 5),
        6,
    );
}

fn other_cases<W: Write>(output: &mut W) {
    not_stopped(output);
    one_station(output);
    largest_costs(output);
    side_of_default(
        output,
        b"two stations, costs 3000 and 6000, no due-in, then due in 18000\n",
        3000,
    );
    side_of_default(
        output,
        b"two stations, costs 3001 and 6000, no due-in, then due in 18000\n",
        3001,
    );
    thirty_two(output);
    by_format(output);
}

fn main(rt: HostRuntime) {
    let output = &mut rt.stdout();
    counter_cases(output);
    other_cases(output);
    console::write_all(
        output,
        b"the standing table, with deadline 8 and with deadline 7\n",
    );
    table(output, b"2\n10 10 2 3\n8 8 1 2\n");
    table(output, b"2\n10 10 2 3\n8 7 1 2\n");
}
