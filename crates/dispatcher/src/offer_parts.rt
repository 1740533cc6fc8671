// Quote and offer by their parts: what is asked of an order block, and what is done with a block once that passes, whether it
// was lent or stands for an order by format. The C interface joins them.
ghost use Rattle.std.specs.Prelude.{◌≡◌, [], ◌∷◌, IfOk};
ghost use Rattle.model.specs.Questions.{first_no};
ghost use Rattle.model.specs.Admission.{block_length_question, block_of};
ghost use Rattle.soundness.specs.Questions.{number_given};
ghost use Rattle.dispatcher.specs.Comes.{Comes, Sound};
ghost use Rattle.dispatcher.specs.Gives.{Gives};
ghost use Rattle.dispatcher.specs.Taken.{offer_taken, quote_taken};

use super::replies::put_answer;
use admission::acceptance::accept;
use admission::block::block_of;
use admission::decision::Reply;
use admission::order_questions::offer;
use image::layout::{BLOCK_SIZE, IMAGE_SIZE, REPLY_SIZE};
use model::Block;
use soundness::questions::Refusal;

// Question 5, which is asked before anything is read from the order block: 6 to 10 are asked of the block and of figures of
// the image's header, 11 and 12 of the block at the state. An order block that is a byte short passed over does not meet the
// promise.
pub fn lent_block(order: &[u8]) -> Result<Block, Refusal>
    ensures number { number_given result ≡ first_no (block_length_question order.now ∷ []) }
    ensures block { IfOk result (λ b. b ≡ block_of order.now) }
{
    let Ok(order) = <&[u8; BLOCK_SIZE]>::try_from(order) else {
        return Err(Refusal::BlockLength);
    };
    Ok(block_of(order))
}

// A quote of a block, once what is asked before it passes. A ticket in the reply does not meet the promise.
pub fn quoted(image: &[u8; IMAGE_SIZE], b: Block) -> Reply
    requires { Sound image.now }
    ensures { Comes (quote_taken image.now b) image.now result }
{
    match offer(image, b) {
        Ok(accepted) => Reply::done(0, accepted.figures),
        Err(decline) => Reply::from(decline),
    }
}

// An offer of a block, likewise. The reply is written first, and then, of an order that is accepted, the image, where it differs.
// Neither a decline that writes into the image nor an acceptance that leaves it alone meets the promise.
pub fn offered(image: &mut [u8; IMAGE_SIZE], b: Block, reply: &mut [u8; REPLY_SIZE]) -> u32
    requires { Sound image.old }
    ensures { Gives (offer_taken image.old b reply.old) result image.new reply.new }
{
    match offer(image, b) {
        Ok(accepted) => {
            let arrival = accepted.arrival;
            let given = Reply::done(arrival.ticket, accepted.figures);
            let number = put_answer(reply, Ok(given));
            accept(image, b, arrival);
            number
        }
        Err(decline) => put_answer(reply, Ok(Reply::from(decline))),
    }
}
