// Who starts: for each idle station the order that goes first there.
ghost use Rattle.std.specs.Prelude.{◌≡◌, ◌||◌, map, suc, ◌<◌, take};
ghost use Rattle.std.proofs.Math.Option.{some};
ghost use Rattle.model.specs.Limits.{max_stations};
ghost use Rattle.model.specs.Lists.{is_zero};
ghost use Rattle.model.specs.Tick as tick;
ghost use Rattle.tick.specs.Selection.{Queue, candidate_of, key_of};
ghost use Rattle.tick.specs.Selection as defined;

use model::{Order, Service};

// The order that would start at a station: its ticket, its due tick, and its cost and rank there; zeros for nobody. The rank
// has two bytes so that no byte of a `Candidate` is padding, and an array of nobodies is a fill. Tried: `Option<Candidate>`, whose
// tag and padding make an advance 3 to 16 % longer.
#[derive(Clone, Copy, Default)]
pub struct Candidate {
    pub ticket: u32,
    pub due: u32,
    pub left: u16,
    pub rank: u16,
}

// Whether a candidate goes before another: the rule of the queue, here alone. Neither the later due tick of equal ranks nor
// a smaller ticket before an earlier due tick meets the promise.
fn precedes(c: Candidate, other: Candidate) -> bool
    ensures { result ≡ tick.before (key_of c) (key_of other) }
{
    (c.rank, c.due, c.ticket) < (other.rank, other.due, other.ticket)
}

// Whether a candidate goes before the one found so far, which may be nobody.
fn goes_first(c: Candidate, other: Candidate) -> bool
    ensures { result ≡ (is_zero other.ticket || tick.before (key_of c) (key_of other)) }
{
    (other.ticket == 0) | precedes(c, other)
}

// An order as a candidate at the station of place i, counted from 0.
#[tactic(auto, unfolding(crate::specs::Selection::candidate_of, model::specs::Tick::view))]
fn candidate_at(o: &Order, i: usize) -> Candidate
    requires { i < max_stations }
    ensures { result ≡ candidate_of (suc i) (some (tick.view o.now)) }
{
    Candidate {
        ticket: o.ticket,
        due: o.due,
        left: o.costs[i],
        rank: u16::from(o.ranks[i]),
    }
}

// Goes once over the live orders, from the last to the first: each is tried at its own station alone, if that is idle. Neither
// a live order that is passed over nor one that is tried at another station meets the promise. The array comes by value with its
// live count: with a slice of the state's own array the whole state is copied first, and an advance takes 6 to 24 % longer.
pub fn candidates(services: [Service; 8], orders: [Order; 32], live: usize) -> [Candidate; 8]
    requires { Queue orders live }
    ensures { result ≡ defined.candidates (map tick.view (take live orders)) services }
{
    let mut found = [Candidate::default(); 8];
    for o in orders[..live].iter().rev() {
        let k = o.station as usize - 1;
        if services[k].is_idle() {
            let c = candidate_at(o, k);
            if goes_first(c, found[k]) {
                found[k] = c;
            }
        }
    }
    found
}
