// What `inspect` prints of any bytes, into a lent buffer that always has room.
ghost use Rattle.std.specs.Prelude.{◌≡◌, true, ◌+◌, ◌≤◌, length};
ghost use Rattle.model.specs.Image.{decode as says};
ghost use Rattle.model.specs.Soundness.{sound};
ghost use Rattle.lists.specs.Stored.{Put};
ghost use Rattle.text.specs.Printed.{Printed};
ghost use Rattle.image_text.specs.Report.{state_report, clause_line};
ghost use Rattle.image_text.specs.FirstFlaw.{first_flaw};
ghost use Rattle.image_text.specs.Explanation.{name_of, flaw_name, explained};

use super::first_flaw::{Flaw, first_flaw};
use super::report::{put_clause, put_number, put_state};
use image::decode::decode;
use image::layout::IMAGE_SIZE;
use soundness::questions::{Refusal, sound_image};
use text::Text;

impl Flaw {
    // The clause's name.
    fn name(self) -> &'static [u8]
        ensures { result.now ≡ name_of self }
    {
        match self {
            Flaw::StationCount => b"station-count",
            Flaw::LiveCount => b"live-count",
            Flaw::Clock => b"clock",
            Flaw::ZeroBytes => b"zero-bytes",
            Flaw::UnusedRecords => b"unused-records",
            Flaw::Tickets => b"tickets",
            Flaw::Acceptance => b"acceptance",
            Flaw::Due => b"due",
            Flaw::Station => b"station",
            Flaw::Costs => b"costs",
            Flaw::Maxima => b"maxima",
            Flaw::Sum => b"sum",
            Flaw::OnTime => b"on-time",
            Flaw::Beyond => b"beyond",
            Flaw::Services => b"services",
        }
    }
}

// What a sound image says. 8,000 bytes are enough for any.
fn put_said(text: &mut Text<'_>, image: &[u8; IMAGE_SIZE])
    requires { (sound image.now ≡ true) × (text.old.at + 8000 ≤ length text.old.out.now) }
    ensures said { Printed text.old (state_report (says image.now)) text.new }
    ensures within { text.new.at ≤ text.old.at + 8000 }
{
    put_state(text, &decode(image));
}

// The first clause that an image breaks. 22 bytes are enough for any.
fn put_flaw(text: &mut Text<'_>, image: &[u8; IMAGE_SIZE])
    requires { text.old.at + 22 ≤ length text.old.out.now }
    ensures said { Printed text.old (clause_line (flaw_name (first_flaw image.now))) text.new }
    ensures within { text.new.at ≤ text.old.at + 22 }
{
    match first_flaw(image) {
        Some(flaw) => put_clause(text, flaw.name()),
        None => put_clause(text, b""),
    }
}

// What there is to say of an image of the right length. 8,018 bytes are enough for any. Ruled out: the state of an image that is
// not sound.
fn put_explained(text: &mut Text<'_>, image: &[u8; IMAGE_SIZE])
    requires { text.old.at + 8018 ≤ length text.old.out.now }
    ensures said { Printed text.old (explained image.now) text.new }
    ensures within { text.new.at ≤ text.old.at + 8018 }
{
    match sound_image(image) {
        Ok(()) => {
            put_number(text, 0);
            put_said(text, image);
        }
        Err(refusal) => {
            put_number(text, u32::from(refusal));
            if refusal == Refusal::Unsound {
                put_flaw(text, image);
            }
        }
    }
}

// What there is to say of any bytes, and how many bytes of the buffer it takes. Ruled out: a clause named by another's name.
pub fn explain(image: &[u8], out: &mut [u8; 8192]) -> usize
    ensures put { Put out.old 0 (explained image.now) result out.new }
    ensures within { result ≤ 8192 }
{
    let mut text = Text::new(out);
    match <&[u8; IMAGE_SIZE]>::try_from(image) {
        Ok(image) => put_explained(&mut text, image),
        Err(_) => put_number(&mut text, u32::from(Refusal::ImageLength)),
    }
    text.at
}
