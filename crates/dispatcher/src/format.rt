// Document 02, (i), "Order by paper format": "Offered or quoted, it gets the reply, and leaves the image, that the same order
// written as a block does".
ghost use Rattle.model.specs.Calls.{offer_format_call, quote_format_call};
ghost use Rattle.admission.specs.Formats.{said};
ghost use Rattle.dispatcher.specs.Comes.{Comes, given_by};
ghost use Rattle.dispatcher.specs.Gives.{Gives};

use super::format_parts::format_block;
use super::offer_parts::{offered, quoted};
use super::replies::put_answer;
use admission::decision::Reply;
use admission::formats::FormatOrder;
use image::layout::{IMAGE_SIZE, REPLY_SIZE};
use soundness::questions::{Refusal, image_answer, sound_image};

// Questions 2 to 5, 19 and 20, and the quote of the block that the order stands for.
fn quote(image: &[u8], order: FormatOrder<'_>) -> Result<Reply, Refusal>
    ensures { Comes (quote_format_call image.now (said order.entry)) image.now (given_by result) }
{
    let image = image_answer(image)?;
    let block = format_block(image, order)?;
    Ok(quoted(image, block))
}

// Whether an order by format would be accepted, and what the reply would give. Neither a ticket in the reply nor 19 for the last
// format meets the promise.
pub fn dispatcher_quote_format(
    image: &[u8],
    format: u32,
    due_in: u32,
    rank: u8,
    sheet: &[u8],
    reply: &mut [u8],
) -> u32
    ensures { Gives (quote_format_call image.now (record { format = format; due_in = due_in; rank = rank; sheet = sheet.now }) reply.old) result image.now reply.new }
{
    let order = FormatOrder {
        format,
        due_in,
        rank,
        sheet,
    };
    let Some(reply) = reply.as_mut_array::<REPLY_SIZE>() else {
        return u32::from(Refusal::ReplyLength);
    };
    put_answer(reply, quote(image, order))
}

// Takes an order by format, if every question passes. Neither the block of another format accepted nor a decline that writes into
// the image meets the promise.
pub fn dispatcher_offer_format(
    image: &mut [u8],
    format: u32,
    due_in: u32,
    rank: u8,
    sheet: &[u8],
    reply: &mut [u8],
) -> u32
    ensures { Gives (offer_format_call image.old (record { format = format; due_in = due_in; rank = rank; sheet = sheet.now }) reply.old) result image.new reply.new }
{
    let order = FormatOrder {
        format,
        due_in,
        rank,
        sheet,
    };
    let Some(reply) = reply.as_mut_array::<REPLY_SIZE>() else {
        return u32::from(Refusal::ReplyLength);
    };
    let Some(image) = image.as_mut_array::<IMAGE_SIZE>() else {
        return put_answer(reply, Err(Refusal::ImageLength));
    };
    if let Err(refusal) = sound_image(image) {
        return put_answer(reply, Err(refusal));
    }
    match format_block(image, order) {
        Ok(block) => offered(image, block, reply),
        Err(refusal) => put_answer(reply, Err(refusal)),
    }
}
