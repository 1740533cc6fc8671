// Quote and offer by paper format: what is asked before the block that such an order stands for, and that block.
ghost use Rattle.std.specs.Prelude.{◌≡◌, IfOk};
ghost use Rattle.model.specs.Image as says;
ghost use Rattle.model.specs.Questions.{first_no};
ghost use Rattle.model.specs.Formats.{format_questions};
ghost use Rattle.soundness.specs.Questions.{number_given};
ghost use Rattle.admission.specs.Formats.{held_block, said};
ghost use Rattle.dispatcher.specs.Comes.{Sound};

use admission::formats::{FormatOrder, moving};
use image::layout::{IMAGE_SIZE, SHEET_SIZE, SHEET_SPEEDS_AT, STATION_COUNT_AT};
use image::reader::eight_halves_at;
use model::Block;
use model::limits::MAX_FORMAT;
use soundness::questions::Refusal;

// Questions 5, 19 and 20, of a sheet and a format at n stations. Neither 20 beside a format that is none nor a sheet that is a
// byte short passed over meets the promise.
fn sheet_answer(n: u32, format: u32, sheet: &[u8]) -> Result<(), Refusal>
    ensures { number_given result ≡ first_no (format_questions n format sheet.now) }
{
    if sheet.len() != SHEET_SIZE {
        return Err(Refusal::BlockLength);
    }
    if (format < 1) | (MAX_FORMAT < format) {
        return Err(Refusal::Format);
    }
    if !moving(n, eight_halves_at(sheet, SHEET_SPEEDS_AT)) {
        return Err(Refusal::Speed);
    }
    Ok(())
}

// Questions 5, 19 and 20, which are asked before there is a block, and the block. A 20 for a speed beyond station n does not
// meet the promise.
pub fn format_block(image: &[u8; IMAGE_SIZE], order: FormatOrder<'_>) -> Result<Block, Refusal>
    requires { Sound image.now }
    ensures number { number_given result ≡ first_no (format_questions (says.decode image.now).n order.entry.format order.entry.sheet.now) }
    ensures block { IfOk result (λ b. b ≡ held_block (says.decode image.now).n (said order.entry)) }
{
    let n = u32::from(image[STATION_COUNT_AT]);
    sheet_answer(n, order.format, order.sheet)?;
    Ok(order.block(n))
}
