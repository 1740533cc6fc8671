// "each order in service has one tick less to go": a station's entry is lent to the step that takes off one tick.
ghost use Rattle.std.specs.Prelude.{◌≡◌, map};
ghost use Rattle.model.specs.Tick.{one_less};

use model::Service;

// Takes one tick off the entry that is lent. Nothing to go stays so.
#[tactic(auto, unfolding(model::specs::Tick::one_less))]
fn take_tick(e: &mut Service)
    ensures { e.new ≡ one_less e.old }
{
    e.left = e.left.saturating_sub(1);
}

// One tick off each station's entry, which is lent and changed in its place. Neither a station passed over nor two ticks off
// meets the promise.
pub fn tick_all(mut services: [Service; 8]) -> [Service; 8]
    ensures { result ≡ map one_less services }
{
    for entry in services.iter_mut() {
        take_tick(entry);
    }
    services
}
