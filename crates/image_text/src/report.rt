// The text that `inspect` prints of an image. Each function prints one text of specs/Report.antt after what is printed already. It
// asks for exactly the room that its text takes; proofs/Room.antt says how much is always enough. A text of more than a few parts
// is printed by several functions: a proof grows fast with the calls that print.
ghost use Rattle.std.specs.Prelude.{◌≡◌, ◌++◌, ◌≤◌};
ghost use Rattle.model.specs.Limits.{max_stations, max_live};
ghost use Rattle.text.specs.Decimal.{decimal};
ghost use Rattle.text.specs.Printed.{Printed, Room};
ghost use Rattle.image.specs.Pipeline.{listed};
ghost use Rattle.image_text.specs.Report.{line_feed, figure_line, spaced, service_words, station_line, order_ticks, order_figures, order_costs, order_line, head_lines, station_lines, order_lines, state_report, clause_line};

use image::pipeline::Pipeline;
use model::{Order, Service};
use text::Text;

// A word and a number as a line.
fn put_figure_line(text: &mut Text<'_>, word: &[u8], v: u32)
    requires { Room text.old (word.now ++ decimal v ++ line_feed) }
    ensures { Printed text.old (word.now ++ decimal v ++ line_feed) text.new }
{
    text.figure(word, u64::from(v));
    text.byte(b'\n');
}

// Numbers, each after a space.
fn put_spaced(text: &mut Text<'_>, values: &[u16])
    requires { Room text.old (spaced values.now) }
    ensures { Printed text.old (spaced values.now) text.new }
{
    for v in values {
        text.figure(b" ", u64::from(*v));
    }
}

// What a station serves, after its number. Ruled out: `ticket 0` of an idle station; `idle` of one with an order in service.
#[tactic(auto, unfolding(crate::specs::Report::service_words))]
fn put_service(text: &mut Text<'_>, e: Service)
    requires { Room text.old (service_words e) }
    ensures { Printed text.old (service_words e) text.new }
{
    if e == Service::default() {
        return text.bytes(b" idle");
    }
    text.figure(b" ticket ", u64::from(e.ticket));
    text.figure(b" left ", u64::from(e.left));
}

#[tactic(auto, unfolding(crate::specs::Report::station_line))]
fn put_station(text: &mut Text<'_>, k: usize, e: Service)
    requires { Room text.old (station_line k e) }
    ensures { Printed text.old (station_line k e) text.new }
{
    text.figure(b"station ", k as u64);
    put_service(text, e);
    text.byte(b'\n');
}

// The line of an order, in four functions.
#[tactic(auto, unfolding(crate::specs::Report::order_ticks))]
fn put_order_ticks(text: &mut Text<'_>, o: &Order)
    requires { Room text.old (order_ticks o.now.ticket o.now.accepted o.now.due) }
    ensures { Printed text.old (order_ticks o.now.ticket o.now.accepted o.now.due) text.new }
{
    text.figure(b"order ", u64::from(o.ticket));
    text.figure(b" accepted ", u64::from(o.accepted));
    text.figure(b" due ", u64::from(o.due));
}

#[tactic(auto, unfolding(crate::specs::Report::order_figures))]
fn put_order_figures(text: &mut Text<'_>, o: &Order)
    requires { Room text.old (order_figures o.now) }
    ensures { Printed text.old (order_figures o.now) text.new }
{
    put_order_ticks(text, o);
    text.figure(b" sum ", u64::from(o.sum));
    text.figure(b" station ", u64::from(o.station));
}

// Of costs and maxima, those of the first n stations. Ruled out: all eight where there are fewer stations; a number less.
#[tactic(auto, unfolding(crate::specs::Report::order_costs))]
fn put_order_costs(text: &mut Text<'_>, n: usize, o: &Order)
    requires { (n ≤ max_stations) × Room text.old (order_costs n o.now) }
    ensures { Printed text.old (order_costs n o.now) text.new }
{
    text.bytes(b" costs");
    put_spaced(text, &o.costs[..n]);
    text.bytes(b" maxima");
    put_spaced(text, &o.maxima[..n]);
}

// Ranks as numbers of the size that costs have.
fn as_halves(ranks: [u8; 8]) -> [u16; 8]
    ensures { result ≡ ranks }
{
    ranks.map(u16::from)
}

#[tactic(auto, unfolding(crate::specs::Report::order_line))]
fn put_order(text: &mut Text<'_>, n: usize, o: &Order)
    requires { (n ≤ max_stations) × Room text.old (order_line n o.now) }
    ensures { Printed text.old (order_line n o.now) text.new }
{
    put_order_figures(text, o);
    text.bytes(b" ranks");
    put_spaced(text, &as_halves(o.ranks)[..n]);
    put_order_costs(text, n, o);
    text.byte(b'\n');
}

// The lines of stations. Ruled out: numbers from 0.
fn put_stations(text: &mut Text<'_>, services: &[Service])
    requires { Room text.old (station_lines services.now) }
    ensures { Printed text.old (station_lines services.now) text.new }
{
    for (i, e) in services.iter().enumerate() {
        put_station(text, i + 1, *e);
    }
}

// The lines of orders. Ruled out: the first order left out.
fn put_orders(text: &mut Text<'_>, n: usize, orders: &[Order])
    requires { (n ≤ max_stations) × Room text.old (order_lines n orders.now) }
    ensures { Printed text.old (order_lines n orders.now) text.new }
{
    for o in orders {
        put_order(text, n, o);
    }
}

#[tactic(auto, unfolding(crate::specs::Report::head_lines))]
fn put_head(text: &mut Text<'_>, n: u8, clock: u32, next: u32)
    requires { Room text.old (head_lines n clock next) }
    ensures { Printed text.old (head_lines n clock next) text.new }
{
    put_figure_line(text, b"stations ", u32::from(n));
    put_figure_line(text, b"clock ", clock);
    put_figure_line(text, b"next ", next);
}

// The first line of every report. Ruled out: the number alone, with no word before it; the number in another base than ten.
pub fn put_number(text: &mut Text<'_>, number: u32)
    requires { Room text.old (figure_line "number " number) }
    ensures { Printed text.old (figure_line "number " number) text.new }
{
    put_figure_line(text, b"number ", number);
}

// What a sound image says, after the line of its number: the head, the stations in use, the live orders. Ruled out: an order
// left out, or a record after the live ones printed; a line for a station beyond N; an order's costs where the maxima of its
// interference set (document 01: company) stand.
pub fn put_state(text: &mut Text<'_>, p: &Pipeline)
    requires { (p.now.n ≤ max_stations) × (p.now.live ≤ max_live) × Room text.old (state_report (listed p.now)) }
    ensures { Printed text.old (state_report (listed p.now)) text.new }
{
    let n = usize::from(p.n);
    put_head(text, p.n, p.clock, p.next);
    put_stations(text, &p.services[..n]);
    put_orders(text, n, &p.orders[..usize::from(p.live)]);
}

// Which clause an image breaks, where that is what its number says. Ruled out: the name alone, with no word before it; a line
// that no line feed ends.
#[tactic(auto, unfolding(crate::specs::Report::clause_line))]
pub fn put_clause(text: &mut Text<'_>, name: &[u8])
    requires { Room text.old (clause_line name.now) }
    ensures { Printed text.old (clause_line name.now) text.new }
{
    text.bytes(b"clause ");
    text.bytes(name);
    text.byte(b'\n');
}
