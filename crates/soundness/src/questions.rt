// Document 01, "The questions, first "no" decides": those that every call on an image asks first.
ghost use Rattle.std.specs.Prelude.{◌≡◌, ◌∷◌, IfOk};
ghost use Rattle.model.specs.Image as says;
ghost use Rattle.model.specs.Questions.{first_no};
ghost use Rattle.model.specs.Calls.{reply_question, image_questions};
ghost use Rattle.soundness.specs.Questions.{number_of, number_given};

use image::layout::{
    IMAGE_SIZE, MARK_C, MARK_C_AT, MARK_M, MARK_M_AT, MARK_W, MARK_W_AT, REPLY_SIZE, VERSION,
    VERSION_AT,
};
use image::reader::u16_at;

// The question that was answered "no". `number_of` has document 01's number for each, and `number_given` 0 where none was.
#[derive(Clone, Copy, Debug, PartialEq, Eq)]
pub enum Refusal {
    ReplyLength,
    ImageLength,
    Mark,
    Unsound,
    BlockLength,
    Clock,
    Stations,
    Format,
    Speed,
}

// Document 01's number for a "no". Neither 0 nor one number for two refusals meets the promise.
impl From<Refusal> for u32 {
    ghost from_gives = { λ refusal n. n ≡ number_of refusal };

    fn from(refusal: Refusal) -> u32 {
        match refusal {
            Refusal::ReplyLength => 1,
            Refusal::ImageLength => 2,
            Refusal::Mark => 3,
            Refusal::Unsound => 4,
            Refusal::BlockLength => 5,
            Refusal::Clock => 13,
            Refusal::Stations => 14,
            Refusal::Format => 19,
            Refusal::Speed => 20,
        }
    }
}

// Question 3, "Mark and version as above?". Neither the mark alone nor another version will do.
#[tactic(auto, using(crate::proofs::questions::QuestionLaws::marked_is))]
fn marked(image: &[u8; IMAGE_SIZE]) -> bool
    ensures { result ≡ says.marked image.now }
{
    (image[MARK_W_AT] == MARK_W)
        & ((image[MARK_M_AT] == MARK_M) & (image[MARK_C_AT] == MARK_C))
        & (u16_at(image, VERSION_AT) == VERSION)
}

// Questions 3 and 4, of an image of the right length. Neither 4 for an image without the mark nor a sound image turned away
// meets the promise.
#[tactic(auto, using(crate::proofs::questions::QuestionLaws::mark_no, crate::proofs::questions::QuestionLaws::sound_no, crate::proofs::questions::QuestionLaws::all_yes))]
pub fn sound_image(image: &[u8; IMAGE_SIZE]) -> Result<(), Refusal>
    ensures { number_given result ≡ first_no (image_questions image.now) }
{
    if !marked(image) {
        return Err(Refusal::Mark);
    }
    if !super::whole::sound(image) {
        return Err(Refusal::Unsound);
    }
    Ok(())
}

// Questions 2 to 4, of any bytes, and the same bytes as an image. Neither 3 for bytes of another length nor other bytes meets
// the promise.
#[tactic(auto, using(crate::proofs::questions::QuestionLaws::length_no))]
pub fn image_answer(image: &[u8]) -> Result<&[u8; IMAGE_SIZE], Refusal>
    ensures number { number_given result ≡ first_no (image_questions image.now) }
    ensures bytes { IfOk result (λ whole. whole.now ≡ image.now) }
{
    let Ok(whole) = <&[u8; IMAGE_SIZE]>::try_from(image) else {
        return Err(Refusal::ImageLength);
    };
    sound_image(whole)?;
    Ok(whole)
}

// Questions 1 to 4, of any bytes: what every call on an image asks first. Neither 2 beside a reply of the wrong length nor 1
// beside one of the right length meets the promise.
#[tactic(auto, using(crate::proofs::questions::QuestionLaws::reply_no, crate::proofs::questions::QuestionLaws::reply_yes))]
pub fn answer_to<'a>(image: &'a [u8], reply: &[u8]) -> Result<&'a [u8; IMAGE_SIZE], Refusal>
    ensures number { number_given result ≡ first_no (reply_question reply.now ∷ image_questions image.now) }
    ensures bytes { IfOk result (λ whole. whole.now ≡ image.now) }
{
    if reply.len() != REPLY_SIZE {
        return Err(Refusal::ReplyLength);
    }
    image_answer(image)
}
