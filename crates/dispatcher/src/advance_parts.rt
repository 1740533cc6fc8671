// Advance once question 1 passes. The C interface joins the two.
ghost use Rattle.std.specs.Prelude.{◌≡◌, ◌<◌};
ghost use Rattle.model.specs.Limits.{last_tick};
ghost use Rattle.model.specs.Image as says;
ghost use Rattle.model.specs.Tick.{starts, tick, advance};
ghost use Rattle.model.specs.Calls.{advance_call};
ghost use Rattle.image.specs.Pipeline.{listed};
ghost use Rattle.image.specs.SoundPipeline.{SoundPipeline};
ghost use Rattle.dispatcher.specs.Gives.{Gives};

use super::replies::put_answer;
use admission::decision::Reply;
use image::decode::decode;
use image::encode::{put_header, put_services};
use image::layout::{CLOCK_AT, IMAGE_SIZE, REPLY_SIZE};
use image::pipeline::Pipeline;
use image::reader::u32_at;
use model::Service;
use model::limits::LAST_TICK;
use soundness::questions::{Refusal, sound_image};
use tick::exits::{ticket_out, vacate_all};
use tick::leaving::leave;
use tick::steps::served;

// Writes what changes of the image: the records if an order leaves a station, the header and the station entries. Neither the
// clock left as it was nor a station entry that keeps an order that has left meets the promise.
fn put_after(image: &mut [u8; IMAGE_SIZE], p: Pipeline, services: [Service; 8])
    requires { (image.old ≡ says.encode (listed p)) × SoundPipeline p × (p.clock < last_tick) × (services ≡ (tick (starts (listed p))).services) }
    ensures { image.new ≡ says.encode (advance (listed p)) }
{
    let vacant = vacate_all(services);
    let kept = leave(image, u32::from(p.n), services, usize::from(p.live));
    put_header(image, p.n, kept as u8, p.clock + 1, p.next);
    put_services(image, vacant);
}

// Questions 2 to 4 and 13, and the course of one tick. 13 is asked of the image's clock before the records are read: asked of
// the state after that, it costs a copy of the records. The reply is written first, and then the image. Neither a clock that goes
// past its end nor the clock from before in the reply meets the promise.
pub fn advanced(image: &mut [u8], reply: &mut [u8; REPLY_SIZE]) -> u32
    ensures { Gives (advance_call image.old reply.old) result image.new reply.new }
{
    let Some(image) = image.as_mut_array::<IMAGE_SIZE>() else {
        return put_answer(reply, Err(Refusal::ImageLength));
    };
    if let Err(refusal) = sound_image(image) {
        return put_answer(reply, Err(refusal));
    }
    if LAST_TICK <= u32_at(image, CLOCK_AT) {
        return put_answer(reply, Err(Refusal::Clock));
    }
    let p = decode(image);
    let services = served(p);
    let given = Reply {
        ticket: ticket_out(usize::from(p.n), services),
        tick: p.clock + 1,
        ..Reply::default()
    };
    let number = put_answer(reply, Ok(given));
    put_after(image, p, services);
    number
}
