// What is printed at the end of a log (document 02, (iv)), into a lent buffer that always has room.
ghost use Rattle.std.specs.Prelude.{◌≡◌, ◌++◌, ◌≤◌, length, take};
ghost use Rattle.model.specs.Limits.{max_stations};
ghost use Rattle.lists.specs.Stored.{Put};
ghost use Rattle.text.specs.Ascii.{ascii};
ghost use Rattle.text.specs.Decimal.{decimal};
ghost use Rattle.text.specs.Printed.{Printed, Room};
ghost use Rattle.log_model.specs.Output.{station_line, same_lines};
ghost use Rattle.log_model.specs.Reading.{at_end, printed};
ghost use Rattle.log_reader.specs.Printed.{station_lines};

use super::rounding::thousandths;
use log_model::{Reading, Rerun};
use model::limits::MAX_STATIONS;
use text::Text;

// A line of words and a number: "printed as `refused 21` and its line number", "or `differs` and the number of the first line that disagrees".
// Ruled out: the number alone; a line that no line feed ends; the number of the line after it.
fn put_numbered(text: &mut Text, words: &[u8], k: u64)
    requires { Room text.old (words.now ++ decimal k ++ ascii "\n") }
    ensures { Printed text.old (words.now ++ decimal k ++ ascii "\n") text.new }
{
    text.figure(words, k);
    text.byte(b'\n');
}

// "for each station one line: station, busy ticks, and" their share of all ticks. Ruled out: the busy ticks first; two spaces between them; a line
// without the share; the share of another number of ticks.
fn put_station(text: &mut Text, all: u32, k: u64, busy: u32)
    requires { Room text.old (station_line all k busy) }
    ensures { Printed text.old (station_line all k busy) text.new }
{
    text.decimal(k);
    text.byte(b' ');
    text.decimal(u64::from(busy));
    text.byte(b' ');
    text.decimal(thousandths(busy, all));
    text.byte(b'\n');
}

// A line for each of the first stations. Ruled out: stations from 0; a line of a station beyond N.
fn put_stations(text: &mut Text, all: u32, busy: &[u32])
    requires { (length busy.now ≤ max_stations) × Room text.old (station_lines all busy.now) }
    ensures { Printed text.old (station_lines all busy.now) text.new }
{
    for (i, ticks) in busy.iter().enumerate() {
        put_station(text, all, i as u64 + 1, *ticks);
    }
}

// The result of a log of the form: "prints `same`" and "After `same`, for each station one line", of which there are figures for eight, or
// `differs`. Ruled out: `same` for one that differs; a colon for the space after the word; the word alone, or the lines before it; the lines of eight
// stations for each cabinet, or of seven for eight.
fn put_result(text: &mut Text, r: &Rerun)
    requires { Room text.old (at_end r.now) }
    ensures { Printed text.old (at_end r.now) text.new }
{
    if r.differs != 0 {
        return put_numbered(text, b"differs ", r.differs);
    }
    text.bytes(b"same\n");
    put_stations(
        text,
        r.ticks,
        &r.busy[..r.stations.min(MAX_STATIONS) as usize],
    );
}

// All that is printed. Ruled out: a result where lines are no longer counted.
fn put_printed(text: &mut Text, s: &Reading)
    requires { Room text.old (printed s.now) }
    ensures { Printed text.old (printed s.now) text.new }
{
    let r = &s.rerun;
    if r.refused != 0 {
        return put_numbered(text, b"refused 21 ", r.refused);
    }
    if r.line == 0 {
        return;
    }
    if (s.held != 0) | (r.line == 1) {
        return put_numbered(text, b"refused 21 ", r.line);
    }
    put_result(text, r);
}

// What the program prints, and how many bytes of the buffer it takes. Ruled out: a result for a log whose last line has not ended; the result
// of a log with a line of another form.
pub fn print(s: Reading, out: &mut [u8; 256]) -> usize
    ensures put { Put out.old 0 (printed s) result out.new }
    ensures within { result ≤ 256 }
{
    let mut text = Text::new(out);
    put_printed(&mut text, &s);
    text.at
}
