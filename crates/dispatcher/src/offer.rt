// "quote and offer 1 to 12"; "Quote gives what offer would give, with ticket 0, and changes nothing in the image."
ghost use Rattle.model.specs.Calls.{offer_call, quote_call};
ghost use Rattle.dispatcher.specs.Comes.{Comes, given_by};
ghost use Rattle.dispatcher.specs.Gives.{Gives};

use super::offer_parts::{lent_block, offered, quoted};
use super::replies::put_answer;
use admission::decision::Reply;
use image::layout::{IMAGE_SIZE, REPLY_SIZE};
use soundness::questions::{Refusal, image_answer, sound_image};

// Questions 2 to 5, and the quote of the block.
fn quote(image: &[u8], order: &[u8]) -> Result<Reply, Refusal>
    ensures { Comes (quote_call image.now order.now) image.now (given_by result) }
{
    let image = image_answer(image)?;
    let block = lent_block(order)?;
    Ok(quoted(image, block))
}

// Whether an order would be accepted, and what the reply would give. Neither a ticket in the reply nor an order block that
// is a byte short taken meets the promise.
pub fn dispatcher_quote(image: &[u8], order: &[u8], reply: &mut [u8]) -> u32
    ensures { Gives (quote_call image.now order.now reply.old) result image.now reply.new }
{
    let Some(reply) = reply.as_mut_array::<REPLY_SIZE>() else {
        return u32::from(Refusal::ReplyLength);
    };
    put_answer(reply, quote(image, order))
}

// Takes an order, if every question passes. Neither a decline that writes into the image nor an acceptance that leaves it
// alone meets the promise.
pub fn dispatcher_offer(image: &mut [u8], order: &[u8], reply: &mut [u8]) -> u32
    ensures { Gives (offer_call image.old order.now reply.old) result image.new reply.new }
{
    let Some(reply) = reply.as_mut_array::<REPLY_SIZE>() else {
        return u32::from(Refusal::ReplyLength);
    };
    let Some(image) = image.as_mut_array::<IMAGE_SIZE>() else {
        return put_answer(reply, Err(Refusal::ImageLength));
    };
    if let Err(refusal) = sound_image(image) {
        return put_answer(reply, Err(refusal));
    }
    match lent_block(order) {
        Ok(block) => offered(image, block, reply),
        Err(refusal) => put_answer(reply, Err(refusal)),
    }
}
