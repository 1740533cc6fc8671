// Entry points for tests and the benchmark, over the parts that the dispatcher's calls are made of. No product has them.
ghost use Rattle.std.specs.Prelude.{◌≡◌, ◌∷◌};
ghost use Rattle.model.specs.Questions.{first_no};
ghost use Rattle.model.specs.Calls.{reply_question, image_questions};
ghost use Rattle.probe.specs.Recode.{Recoded};

use image::decode::decode;
use image::encode::encode;
use image::layout::{IMAGE_SIZE, LIVE_COUNT_AT};
use model::limits::MAX_LIVE;
use soundness::questions::{Refusal, answer_to};

// The number that questions 1 to 4 give.
pub fn probe_number(image: &[u8], reply: &[u8]) -> u32
    ensures { result ≡ first_no (reply_question reply.now ∷ image_questions image.now) }
{
    match answer_to(image, reply) {
        Ok(_) => 0,
        Err(refusal) => u32::from(refusal),
    }
}

// Decodes an image and encodes what it says; bytes of another length, and an image whose records cannot all be read, are
// declined, which changes nothing.
pub fn probe_recode(image: &mut [u8]) -> u32
    ensures { Recoded image.old result image.new }
{
    let Some(whole) = image.as_mut_array::<IMAGE_SIZE>() else {
        return u32::from(Refusal::ImageLength);
    };
    if MAX_LIVE < whole[LIVE_COUNT_AT] {
        return u32::from(Refusal::Unsound);
    }
    let p = decode(whole);
    encode(whole, p);
    0
}
