// Document 01, "Sound means", for the station entries: idle beyond N, and up to N "idle (0, 0) or serving a live order that
// is at it, with ticks to go from 1 to its cost there".
ghost use Rattle.std.specs.Prelude.{◌≡◌, drop};
ghost use Rattle.model.specs.Lists.{all};
ghost use Rattle.model.specs.Image.{services_of, orders_of, decode};
ghost use Rattle.model.specs.Soundness.{is_idle, services_in_order};
ghost use Rattle.soundness.specs.Services.{served_by, marked_by};

use super::counted::Counted;
use image::decode::{order_at, service_at, services_of};
use image::layout::IMAGE_SIZE;
use model::{Order, Service};

// "idle (0, 0)"
#[tactic(auto, unfolding(model::specs::Soundness::is_idle))]
fn idle(e: Service) -> bool
    ensures { result ≡ is_idle e }
{
    e == Service::default()
}

// Marks an order's station as served, if the entry there has its ticket and ticks to go from 1 to its cost. In place:
// copies of the marks, or of the entries, for each record would take longer than the tests.
fn mark(served: &mut [bool; 8], image: &[u8; IMAGE_SIZE], o: Order)
    ensures { served.new ≡ marked_by (services_of image.now) o served.old }
{
    // The row by itself: where a place of it is asked for in the record, a compiler keeps costs and maxima in memory.
    let costs = o.costs;
    if (1 <= o.station) & (o.station <= 8) {
        let k = (o.station - 1) as usize;
        let e = service_at(image, k);
        if o.ticket == e.ticket {
            served[k] |= (1 <= e.left) & (e.left <= costs[k]);
        }
    }
}

impl Counted<'_> {
    // "fields beyond N zero", of the station entries. Neither an entry of station N refused, nor ticks to go beside ticket 0
    // let through, meets the promise.
    pub fn idle_beyond(self) -> bool
        ensures { result ≡ all is_idle (drop self.entry.n (services_of self.entry.image.now)) }
    {
        let mut holds = true;
        for (k, e) in services_of(self.image).iter().enumerate() {
            holds &= (k < self.n as usize) | idle(*e);
        }
        holds
    }

    // The stations whose entries the live records serve: one pass over the records, in place of a search for each station.
    fn served_by(self) -> [bool; 8]
        ensures { result ≡ served_by (services_of self.entry.image.now) (orders_of self.entry.image.now self.entry.live) }
    {
        let mut served = [false; 8];
        for i in 0..self.live {
            mark(&mut served, self.image, order_at(self.image, i));
        }
        served
    }

    // "each station idle (0, 0) or serving a live order that is at it, with ticks to go from 1 to its cost there". Neither an
    // entry with the ticket of an order at another station let through, nor one refused for ticks to go equal to the cost,
    // meets the promise.
    pub fn services_in_order(self) -> bool
        ensures { result ≡ services_in_order (decode self.entry.image.now) }
    {
        let served = self.served_by();
        let mut holds = true;
        for (k, e) in services_of(self.image).iter().enumerate() {
            holds &= (self.n as usize <= k) | (idle(*e) | served[k]);
        }
        holds
    }
}
