// An arrival accepted: the image of the state with it. Of the image before, the header, the records of the live orders and
// the first unused record are written, where they lie.
ghost use Rattle.std.specs.Prelude.{◌≡◌, map, cond, ℕ, ◌+◌, ◌*◌, ◌≤◌, ◌<◌, length, eqb};
ghost use Rattle.model.specs.Limits.{max_live, last_ticket};
ghost use Rattle.model.specs.Lists.{largest, concat};
ghost use Rattle.model.specs.Layout.{records_at, record_size, record_part};
ghost use Rattle.model.specs.Image.{order_of, orders_of, order_bytes, decode, encode};
ghost use Rattle.model.specs.Admission.{joined_by};
ghost use Rattle.model.specs.Admission as defined;
ghost use Rattle.lists.specs.Stored.{Stored};
ghost use Rattle.admission.specs.Acceptance.{Acceptable};

use super::interference::joined_by;
use image::decode::order_at;
use image::encode::{put_header, put_order};
use image::layout::{IMAGE_SIZE, LIVE_COUNT_AT, RECORD_SIZE, RECORDS_AT, STATION_COUNT_AT};
use model::{Block, Order};
use soundness::row_figures::largest;

// "next ticket (4), 0 when none is left"
fn ticket_after(ticket: u32) -> u32
    ensures { result ≡ cond (eqb ticket last_ticket) 0 (ticket + 1) }
{
    ticket.checked_add(1).unwrap_or(0)
}

// The records of the live orders, each with the arrival in its interference set. A live order passed over does not meet the
// promise.
fn put_joined(image: &mut [u8; IMAGE_SIZE], b: Block, live: usize)
    requires few { live ≤ max_live }
    requires by_index { (i : ℕ) → i < live → largest b.costs + (order_of (record_part image.old i)).sum < 4294967296 }
    ensures stored { Stored image.old records_at (concat (map order_bytes (map (joined_by b) (orders_of image.old live)))) image.new }
    ensures live_len { length (concat (map order_bytes (map (joined_by b) (orders_of image.old live)))) ≡ record_size * live }
{
    let top = largest(b.costs);
    for i in 0..live {
        let o = order_at(image, i);
        put_order(image, RECORDS_AT + RECORD_SIZE * i, joined_by(b, top, o));
    }
}

// Neither the arrival's ticket left as the next one nor live orders without the arrival in their interference sets meet the
// promise.
pub fn accept(image: &mut [u8; IMAGE_SIZE], b: Block, a: Order)
    requires { Acceptable image.old b a }
    ensures { image.new ≡ encode (defined.accept (decode image.old) b) }
{
    let n = image[STATION_COUNT_AT];
    let live = image[LIVE_COUNT_AT];
    put_joined(image, b, usize::from(live));
    put_order(image, RECORDS_AT + RECORD_SIZE * usize::from(live), a);
    put_header(image, n, live + 1, a.accepted, ticket_after(a.ticket));
}
