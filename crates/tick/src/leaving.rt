// "An order with nothing to go leaves its station, and waits at the next or, after station N, is out."
ghost use Rattle.std.specs.Prelude.{◌≡◌, cond, ◌&&◌, ◌+◌, ◌-◌, ◌*◌, ◌≤◌, length, replicate, eqb};
ghost use Rattle.model.specs.Limits.{max_stations, max_live};
ghost use Rattle.model.specs.Lists.{is_zero, any};
ghost use Rattle.model.specs.Layout.{image_size, records_at, record_size};
ghost use Rattle.model.specs.Image.{orders_of};
ghost use Rattle.lists.specs.Stored.{Stored};
ghost use Rattle.tick.specs.Leaving.{finishes, moved_by, Held, Holds, Moved, Left};

use image::decode::order_at;
use image::encode::put_order;
use image::layout::{IMAGE_SIZE, RECORD_SIZE, RECORDS_AT};
use model::{Order, Service};

// The record of an order at the station where it then is, where e is the entry of the station where it was.
#[tactic(auto, unfolding(crate::specs::Leaving::moved_by, model::specs::Tick::move_to))]
fn moved(e: Service, o: Order) -> Order
    requires { o.station ≤ max_stations }
    ensures { result ≡ moved_by e o }
{
    if (e.ticket == o.ticket) & e.is_done() {
        Order {
            station: o.station + 1,
            ..o
        }
    } else {
        o
    }
}

// Whether any order leaves a station.
fn any_leaves(services: [Service; 8]) -> bool
    ensures { result ≡ any finishes services }
{
    services.iter().any(|e| e.is_leaving())
}

// Goes once over the live records of the image: each order moves, and its record is put back, behind those that stay, unless it
// is past station n; how many stay. A record is read before any is put in its place. Neither an order at station n removed nor
// one that is out kept meets the promise.
fn put_remaining(image: &mut [u8; IMAGE_SIZE], n: u32, services: [Service; 8], live: usize) -> usize
    requires { Held n (orders_of image.old live) }
    ensures { Moved n services (orders_of image.old live) image.old result image.new }
{
    let mut kept: usize = 0;
    for i in 0..live {
        let o = order_at(image, i);
        let m = moved(services[o.station as usize - 1], o);
        if m.station <= n {
            put_order(image, RECORDS_AT + RECORD_SIZE * kept, m);
            kept += 1;
        }
    }
    kept
}

// The live records from place `kept` on become zero.
fn put_unused(image: &mut [u8; IMAGE_SIZE], kept: usize, live: usize)
    requires { (kept ≤ live) × (live ≤ max_live) }
    ensures { Stored image.old (records_at + record_size * kept) (replicate (record_size * (live - kept)) 0) image.new }
{
    image[RECORDS_AT + RECORD_SIZE * kept..RECORDS_AT + RECORD_SIZE * live].fill(0);
}

// The records after the tick, in the place of those from before it, and how many they are. In a tick in which no order leaves a
// station they are as they were, and nothing is written. The record of an order that is out, left behind, does not meet the
// promise.
pub fn leave(image: &mut [u8; IMAGE_SIZE], n: u32, services: [Service; 8], live: usize) -> usize
    requires { Held n (orders_of image.old live) × Holds image.old (orders_of image.old live) }
    ensures { Left n services (orders_of image.old live) image.old result image.new }
{
    if any_leaves(services) {
        let kept = put_remaining(image, n, services, live);
        put_unused(image, kept, live);
        return kept;
    }
    live
}
