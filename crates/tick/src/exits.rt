// "An order with nothing to go leaves its station": the entries then, and who is out.
ghost use Rattle.std.specs.Prelude.{◌≡◌, map, ◌≤◌};
ghost use Rattle.model.specs.Limits.{max_stations};
ghost use Rattle.model.specs.Tick.{vacate, ticket_out};

use model::Service;

#[tactic(auto, unfolding(model::specs::Tick::vacate))]
fn vacated(e: Service) -> Service
    ensures { result ≡ vacate e }
{
    if e.is_done() { Service::default() } else { e }
}

// The entries once every order with nothing to go has left its station. Neither an entry left in place with nothing to go nor
// a station cleared before its time meets the promise.
pub fn vacate_all(services: [Service; 8]) -> [Service; 8]
    ensures { result ≡ map vacate services }
{
    services.map(|e| vacated(e))
}

// "the ticket out or 0": of n stations, what the last has in service with nothing to go. Neither another station's ticket nor
// one with a tick to go meets the promise.
#[tactic(auto, using(crate::proofs::entries::StationLaws::out_at_lem))]
pub fn ticket_out(n: usize, services: [Service; 8]) -> u32
    requires { (1 ≤ n) × (n ≤ max_stations) }
    ensures { result ≡ ticket_out n services }
{
    let last = services[n - 1];
    if last.is_done() { last.ticket } else { 0 }
}
