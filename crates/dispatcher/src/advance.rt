// "advance 1 to 4, then 13"; "advance gives the ticket out or 0, the new clock, and 0".
ghost use Rattle.model.specs.Calls.{advance_call};
ghost use Rattle.dispatcher.specs.Gives.{Gives};

use super::advance_parts::advanced;
use image::layout::REPLY_SIZE;
use soundness::questions::Refusal;

// Lets one tick pass. Neither a decline that writes into the image nor a clock that goes past its end meets the promise.
pub fn dispatcher_advance(image: &mut [u8], reply: &mut [u8]) -> u32
    ensures { Gives (advance_call image.old reply.old) result image.new reply.new }
{
    let Some(reply) = reply.as_mut_array::<REPLY_SIZE>() else {
        return u32::from(Refusal::ReplyLength);
    };
    advanced(image, reply)
}
