// Quote and offer: questions 6 to 12, "first "no" decides".
ghost use Rattle.std.specs.Prelude.{◌≡◌, true, drop, ◌≤◌};
ghost use Rattle.model.specs.Limits.{last_tick};
ghost use Rattle.model.specs.Image as says;
ghost use Rattle.model.specs.Soundness.{sound};
ghost use Rattle.model.specs.Admission.{due_of, state_questions};
ghost use Rattle.image.specs.Pipeline.{listed};
ghost use Rattle.call_laws.specs.Considered.{Fitting};
ghost use Rattle.admission.specs.Arrival.{arrival_with};
ghost use Rattle.image.specs.SoundPipeline.{SoundPipeline};
ghost use Rattle.admission.specs.OrderQuestions.{Offers, Answers};

use super::block::due_tick;
use super::decision::{Decline, decide};
use super::margins::{Figures, Tried, try_all};
use image::decode::decode;
use image::layout::{CLOCK_AT, IMAGE_SIZE, LIVE_COUNT_AT, NEXT_AT, STATION_COUNT_AT};
use image::pipeline::Pipeline;
use image::reader::u32_at;
use model::limits::{LAST_TICK, MAX_DUE_IN, MAX_LIVE};
use model::{Block, Order};
use soundness::row_limits::Limits;

// An order that is accepted: what the offer gives, and the record of the arrival.
#[derive(Clone, Copy, Debug, PartialEq, Eq)]
pub struct Accepted {
    pub figures: Figures,
    pub arrival: Order,
}

// The arrival (document 01: newcomer), as it would be accepted now. Neither a ticket that was given before nor a due tick of
// the due-in alone meets the promise.
fn arrival(ticket: u32, clock: u32, b: Block, tried: Tried) -> Order
    requires { due_of clock b ≤ last_tick }
    ensures { result ≡ arrival_with ticket clock b tried.sum tried.maxima }
{
    let Block { ranks, costs, .. } = b;
    let Tried { sum, maxima, .. } = tried;
    Order {
        ticket,
        accepted: clock,
        due: due_tick(clock, b) as u32,
        sum,
        station: 1,
        ranks,
        costs,
        maxima,
    }
}

// Questions 11 and 12 of a state: every live order is tried with the arrival.
fn answered(p: Pipeline, b: Block) -> Result<Accepted, Decline>
    requires sound_pipeline { SoundPipeline p }
    requires fitting { Fitting (listed p) b }
    ensures { Offers (drop 3 (state_questions (listed p) b)) (listed p) b result }
{
    let limits = Limits::new(u32::from(p.n));
    // By itself, as D69 has it: lent out of the state, its 1,920 bytes are copied.
    let orders = p.orders;
    let count = usize::from(p.live);
    let tried = try_all(limits, b, &orders[..count]);
    let arrival = arrival(p.next, p.clock, b, tried);
    let figures = decide(limits, arrival, tried.least)?;
    Ok(Accepted { figures, arrival })
}

// Questions 6 to 12, of an order at what an image says. The records are read once 6 to 10 pass: 11 and 12 alone ask for them,
// and the state is carried from there. Neither an order declined whose delay bound keeps all on time nor one accepted beside
// 32 live ones meets the promise.
pub fn offer(image: &[u8; IMAGE_SIZE], b: Block) -> Result<Accepted, Decline>
    requires { sound image.now ≡ true }
    ensures { Answers (says.decode image.now) b result }
{
    let clock = u32_at(image, CLOCK_AT);
    let next = u32_at(image, NEXT_AT);
    let live = image[LIVE_COUNT_AT];
    if !super::block::fits(u32::from(image[STATION_COUNT_AT]), b) {
        return Err(Decline::Costs);
    }
    if MAX_DUE_IN < u64::from(b.due_in) {
        return Err(Decline::DueIn);
    }
    if u64::from(LAST_TICK) < due_tick(clock, b) {
        return Err(Decline::DueTick);
    }
    if next == 0 {
        return Err(Decline::Tickets);
    }
    if MAX_LIVE <= live {
        return Err(Decline::Room);
    }
    answered(decode(image), b)
}
