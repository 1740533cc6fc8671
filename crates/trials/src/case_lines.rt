// The line that a program prints of a call, into a lent buffer. Each function prints one text of specs/CaseLines.antt after what is
// printed already.
ghost use Rattle.std.specs.Prelude.{◌≤◌, length};
ghost use Rattle.lists.specs.Stored.{Put};
ghost use Rattle.text.specs.Printed.{Printed, Room};
ghost use Rattle.trials.specs.CaseLines.{signed, reply_figures, reply_margin, reply_line};

use image::layout::{REPLY_MARGIN_AT, REPLY_NUMBER_AT, REPLY_SIZE, REPLY_TICK_AT, REPLY_TICKET_AT};
use image::reader::u32_at;
use text::Text;

// The least of the 32 bits that stand for a number below zero.
const BELOW_ZERO: u32 = 2147483648;

// A margin, by its bits. Ruled out: 4294967295 for -1; a sign before a number that is not below zero.
fn put_signed(text: &mut Text<'_>, bits: u32)
    requires { Room text.old (signed bits) }
    ensures { Printed text.old (signed bits) text.new }
{
    // With `cast_signed` for this test the proof did not close.
    if bits < BELOW_ZERO {
        return text.decimal(u64::from(bits));
    }
    text.figure(b"-", u64::from(bits.wrapping_neg()));
}

// Number, ticket and tick of a reply.
#[tactic(auto, unfolding(crate::specs::CaseLines::reply_figures))]
fn put_figures(text: &mut Text<'_>, number: u32, ticket: u32, tick: u32)
    requires { Room text.old (reply_figures number ticket tick) }
    ensures { Printed text.old (reply_figures number ticket tick) text.new }
{
    text.figure(b": number ", u64::from(number));
    text.figure(b" ticket ", u64::from(ticket));
    text.figure(b" tick ", u64::from(tick));
}

#[tactic(auto, unfolding(crate::specs::CaseLines::reply_margin))]
fn put_margin(text: &mut Text<'_>, bits: u32)
    requires { Room text.old (reply_margin bits) }
    ensures { Printed text.old (reply_margin bits) text.new }
{
    text.bytes(b" margin ");
    put_signed(text, bits);
}

// The line of a call, and how many bytes of the buffer it takes. Ruled out: the ticket where the tick stands; a line that no
// line feed ends.
pub fn put_reply_line(out: &mut [u8; 128], call: &[u8], reply: &[u8; REPLY_SIZE]) -> usize
    requires { length call.now ≤ 8 }
    ensures put { Put out.old 0 (reply_line call.now reply.now) result out.new }
    ensures within { result ≤ 128 }
{
    let number = u32_at(reply, REPLY_NUMBER_AT);
    let ticket = u32_at(reply, REPLY_TICKET_AT);
    let tick = u32_at(reply, REPLY_TICK_AT);
    let margin = u32_at(reply, REPLY_MARGIN_AT);
    let mut text = Text::new(out);
    text.bytes(call);
    put_figures(&mut text, number, ticket, tick);
    put_margin(&mut text, margin);
    text.byte(b'\n');
    text.at
}
