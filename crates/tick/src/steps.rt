// The course of one tick, on a state by value: the starts, and one tick less to go.
ghost use Rattle.std.specs.Prelude.{◌≡◌};
ghost use Rattle.model.specs.Tick.{starts, tick};
ghost use Rattle.image.specs.Pipeline.{listed};
ghost use Rattle.image.specs.SoundPipeline.{SoundPipeline};

use super::entries::tick_all;
use super::starting::started;
use image::pipeline::Pipeline;
use model::Service;

// "Advance does this, in order": the station entries once each idle station has started an order and each order in service has
// one tick less to go. Those with nothing to go are about to leave. Neither a tick without starts nor an order that starts and
// keeps its whole cost to go meets the promise.
pub fn served(p: Pipeline) -> [Service; 8]
    requires { SoundPipeline p }
    ensures { result ≡ (tick (starts (listed p))).services }
{
    let begun = started(p.services, p.orders, usize::from(p.live));
    tick_all(begun)
}
