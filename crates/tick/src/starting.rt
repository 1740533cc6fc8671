// The starts of the idle stations, each with the order that goes first there.
ghost use Rattle.std.specs.Prelude.{◌≡◌, map, take};
ghost use Rattle.model.specs.Tick as tick;
ghost use Rattle.tick.specs.Selection.{Queue};
ghost use Rattle.tick.specs.Starting.{start_with};

use super::selection::{Candidate, candidates};
use model::{Order, Service};
use std::array;

#[tactic(auto, unfolding(crate::specs::Starting::start_with))]
fn start_with(c: Candidate, e: Service) -> Service
    ensures { result ≡ start_with c e }
{
    if e.is_idle() {
        Service {
            ticket: c.ticket,
            left: c.left,
        }
    } else {
        e
    }
}

// The entries once each idle station with waiting orders has started one. Neither a start at a busy station nor another
// station's cost as the ticks to go meets the promise.
pub fn started(services: [Service; 8], orders: [Order; 32], live: usize) -> [Service; 8]
    requires { Queue orders live }
    ensures { result ≡ tick.start_each (map tick.view (take live orders)) services }
{
    let found = candidates(services, orders, live);
    array::from_fn(|k| start_with(found[k], services[k]))
}
