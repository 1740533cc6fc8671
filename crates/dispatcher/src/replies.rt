// "The reply holds number (0 for done), ticket, tick, margin (signed), 4 bytes each"
ghost use Rattle.std.specs.Prelude.{◌≡◌};
ghost use Rattle.dispatcher.specs.Comes.{given_by, given_bytes};

use admission::decision::Reply;
use image::layout::{REPLY_MARGIN_AT, REPLY_NUMBER_AT, REPLY_SIZE, REPLY_TICK_AT, REPLY_TICKET_AT};
use image::writer::put_u32;
use soundness::questions::Refusal;

// All its bytes; the margin by its 32 bits. Neither the tick in the place of the ticket nor a margin below zero without its
// sign, nor 0 for it, meets the promise.
pub fn put_reply(reply: &mut [u8; REPLY_SIZE], given: Reply)
    ensures { reply.new ≡ given_bytes given }
{
    put_u32(reply, REPLY_NUMBER_AT, given.number);
    put_u32(reply, REPLY_TICKET_AT, given.ticket);
    put_u32(reply, REPLY_TICK_AT, given.tick);
    put_u32(reply, REPLY_MARGIN_AT, given.margin.cast_unsigned());
}

// What a call comes to, once the reply has its length: a refusal gives its number and zeros. Gives the number, as the call
// does. A refusal that leaves the reply as it was does not meet the promise.
pub fn put_answer(reply: &mut [u8; REPLY_SIZE], answer: Result<Reply, Refusal>) -> u32
    ensures number { result ≡ (given_by answer).number }
    ensures bytes { reply.new ≡ given_bytes (given_by answer) }
{
    let given = match answer {
        Ok(given) => given,
        Err(refusal) => Reply::from(refusal),
    };
    put_reply(reply, given);
    given.number
}
