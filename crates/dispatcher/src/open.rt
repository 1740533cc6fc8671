// "Open takes 1, 2, 14"; "open gives zeros and a fresh image (clock 0, next ticket 1)".
ghost use Rattle.model.specs.Calls.{open_call};
ghost use Rattle.dispatcher.specs.Comes.{Comes, given_by};
ghost use Rattle.dispatcher.specs.Gives.{Gives};

use super::replies::put_answer;
use admission::decision::Reply;
use image::encode::encode_fresh;
use image::layout::{IMAGE_SIZE, REPLY_SIZE};
use model::limits::MAX_STATIONS;
use soundness::questions::Refusal;

// Questions 2 and 14, and the fresh image.
fn opened(image: &mut [u8], stations: u32) -> Result<Reply, Refusal>
    ensures { Comes (open_call image.old stations) image.new (given_by result) }
{
    let Some(image) = image.as_mut_array::<IMAGE_SIZE>() else {
        return Err(Refusal::ImageLength);
    };
    if (stations < 1) | (MAX_STATIONS < stations) {
        return Err(Refusal::Stations);
    }
    encode_fresh(image, stations as u8);
    Ok(Reply::default())
}

// Opens a cabinet of so many stations in the image. Neither a decline that writes into the image nor a reply written
// beside number 1 meets the promise.
pub fn dispatcher_open(image: &mut [u8], stations: u32, reply: &mut [u8]) -> u32
    ensures { Gives (open_call image.old stations reply.old) result image.new reply.new }
{
    let Some(reply) = reply.as_mut_array::<REPLY_SIZE>() else {
        return u32::from(Refusal::ReplyLength);
    };
    put_answer(reply, opened(image, stations))
}
