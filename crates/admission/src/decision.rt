// The answer to an offer. `number_of` and `answer_of` have document 01's number and values for each case.
ghost use Rattle.std.specs.Prelude.{◌≡◌, Ok, Err, pos};
ghost use Rattle.soundness.specs.Questions as questions;
ghost use Rattle.admission.specs.Margins.{MarginFits};
ghost use Rattle.admission.specs.Decision.{decision_of, reply_of};

use super::margins::Figures;
use model::Order;
use soundness::questions::Refusal;
use soundness::row_limits::Limits;

// The question that was answered "no", 11 and 12 with the smallest margin.
#[derive(Clone, Copy, Debug, PartialEq, Eq)]
pub enum Decline {
    Costs,
    DueIn,
    DueTick,
    Tickets,
    Room,
    Late(i32),
    Delaying(i32),
}

// Questions 11 and 12, the last two, by the arrival's margin and the smallest of the live orders'. What a done offer gives
// beside the ticket: "acceptance tick + delay sum, and the smallest margin". Neither 12 for an arrival that is late itself nor
// the margin of the arrival alone meets the promise.
pub fn decide(limits: Limits, arrival: Order, others: i32) -> Result<Figures, Decline>
    requires { MarginFits limits.n arrival }
    ensures { result ≡ decision_of limits.n arrival others }
{
    let own = Figures::of(limits, arrival);
    let least = own.margin.min(others);
    if own.margin < 0 {
        return Err(Decline::Late(least));
    }
    if least < 0 {
        return Err(Decline::Delaying(least));
    }
    Ok(Figures {
        tick: own.tick,
        margin: least,
    })
}

// What a reply holds: numbers, as the C interface has them.
#[derive(Clone, Copy, Debug, Default, PartialEq, Eq)]
pub struct Reply {
    pub number: u32,
    pub ticket: u32,
    pub tick: u32,
    pub margin: i32,
}

impl Reply {
    // To an offer that is done, with the ticket that is given: 0 for a quote. One tick for every order does not meet the
    // promise.
    pub fn done(ticket: u32, figures: Figures) -> Reply
        ensures { result ≡ reply_of ticket (Ok figures) }
    {
        Reply {
            number: 0,
            ticket,
            tick: figures.tick,
            margin: figures.margin,
        }
    }

    fn declined(number: u32, margin: i32) -> Reply
        ensures { result ≡ record { number = number; ticket = 0; tick = 0; margin = margin } }
    {
        Reply {
            number,
            margin,
            ..Reply::default()
        }
    }
}

// To an offer that is declined. 12 in the place of 11 does not meet the promise.
impl From<Decline> for Reply {
    ghost from_gives = { λ decline reply. reply ≡ reply_of 0 (Err decline) };

    fn from(decline: Decline) -> Reply {
        match decline {
            Decline::Costs => Reply::declined(6, 0),
            Decline::DueIn => Reply::declined(7, 0),
            Decline::DueTick => Reply::declined(8, 0),
            Decline::Tickets => Reply::declined(9, 0),
            Decline::Room => Reply::declined(10, 0),
            Decline::Late(margin) => Reply::declined(11, margin),
            Decline::Delaying(margin) => Reply::declined(12, margin),
        }
    }
}

// To a "no" to any other question, which gives no values: its number and zeros. 0 for a refusal does not meet the promise.
impl From<Refusal> for Reply {
    ghost from_gives = { λ refusal reply. reply ≡ record { number = questions.number_of refusal; ticket = 0; tick = 0; margin = pos 0 } };

    fn from(refusal: Refusal) -> Reply {
        Reply::declined(u32::from(refusal), 0)
    }
}
