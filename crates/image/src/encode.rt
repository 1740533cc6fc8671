// The image that says a state: every byte of it.
ghost use Rattle.std.specs.Prelude.{◌≡◌, [], ◌∷◌, ◌++◌, map, ◌+◌, ◌-◌, ◌*◌, ◌≤◌, length, take, replicate};
ghost use Rattle.model.specs.Lists.{concat};
ghost use Rattle.model.specs.Limits.{max_stations, max_live};
ghost use Rattle.model.specs.Bytes.{one_byte, two_bytes, four_bytes};
ghost use Rattle.model.specs.Layout.{services_at, service_size, records_at, record_size, ranks_at, mark, version};
ghost use Rattle.model.specs.Image.{service_bytes, order_bytes};
ghost use Rattle.model.specs.Image as says;
ghost use Rattle.model.specs.State.{fresh};
ghost use Rattle.lists.specs.Stored.{Stored};
ghost use Rattle.image.specs.Pipeline.{listed};

use super::layout::{
    ACCEPTED_AT, CLOCK_AT, COSTS_AT, DUE_AT, IMAGE_SIZE, LEFT_AT, MARK_C, MARK_M, MARK_W,
    MARK_W_AT, MAXIMA_AT, NEXT_AT, RANKS_AT, RECORD_SIZE, RECORD_ZERO_AT, RECORDS_AT, SERVICE_SIZE,
    SERVICE_ZERO_AT, SERVICES_AT, STATION_AT, SUM_AT, VERSION, VERSION_AT,
};
use super::pipeline::Pipeline;
use super::writer::{Row, put, put_rows, put_u16, put_u32};
use model::{Order, Service};

// The mark `WMC`, the version, the counts, a zero byte, clock and next ticket.
pub fn put_header(image: &mut [u8; IMAGE_SIZE], n: u8, live: u8, clock: u32, next: u32)
    ensures { Stored image.old 0 (mark ++ two_bytes version ++ (n ∷ live ∷ 0 ∷ []) ++ four_bytes clock ++ four_bytes next) image.new }
{
    let [low, high] = VERSION.to_le_bytes();
    put(image, MARK_W_AT, [MARK_W, MARK_M, MARK_C, low]);
    put(image, VERSION_AT + 1, [high, n, live, 0]);
    put_u32(image, CLOCK_AT, clock);
    put_u32(image, NEXT_AT, next);
}

// A station's entry.
impl Row for Service {
    ghost SIZE = { service_size };

    const SIZE: usize = SERVICE_SIZE;

    ghost bytes = { service_bytes };

    #[tactic(auto, unfolding(model::specs::Image::service_bytes))]
    fn put(self, image: &mut [u8], at: usize) {
        put_u32(image, at, self.ticket);
        put_u16(image, at + LEFT_AT, self.left);
        put_u16(image, at + SERVICE_ZERO_AT, 0);
    }
}

// The entries of the eight stations.
pub fn put_services(image: &mut [u8; IMAGE_SIZE], services: [Service; 8])
    ensures { Stored image.old services_at (concat (map service_bytes services)) image.new × (length (concat (map service_bytes services)) ≡ service_size * max_stations) }
{
    put_rows(image, SERVICES_AT, &services);
}

fn put_order_head(image: &mut [u8], at: usize, o: Order)
    requires { at + ranks_at ≤ length image.old }
    ensures { Stored image.old at (four_bytes o.ticket ++ four_bytes o.accepted ++ four_bytes o.due ++ four_bytes o.sum ++ one_byte o.station ++ (0 ∷ 0 ∷ 0 ∷ [])) image.new }
{
    put_u32(image, at, o.ticket);
    put_u32(image, at + ACCEPTED_AT, o.accepted);
    put_u32(image, at + DUE_AT, o.due);
    put_u32(image, at + SUM_AT, o.sum);
    // Its byte and the three zero bytes after it, in one store.
    put_u32(image, at + STATION_AT, o.station % 256);
}

// A record.
impl Row for Order {
    ghost SIZE = { record_size };

    const SIZE: usize = RECORD_SIZE;

    ghost bytes = { order_bytes };

    #[tactic(auto, unfolding(model::specs::Image::order_bytes))]
    fn put(self, image: &mut [u8], at: usize) {
        put_order_head(image, at, self);
        put(image, at + RANKS_AT, self.ranks);
        put_rows(image, at + COSTS_AT, &self.costs);
        put_rows(image, at + MAXIMA_AT, &self.maxima);
        put_u32(image, at + RECORD_ZERO_AT, 0);
    }
}

// One record. Neither costs in the place of maxima nor a byte after the record changed meets the promise.
pub fn put_order(image: &mut [u8], at: usize, o: Order)
    requires { at + record_size ≤ length image.old }
    ensures { Stored image.old at (order_bytes o) image.new × (length (order_bytes o) ≡ record_size) }
{
    o.put(image, at);
}

#[tactic(auto, using(lists::proofs::Parts::stored_mid))]
fn put_zeros(out: &mut [u8], from: usize)
    requires { from ≤ length out.old }
    ensures { Stored out.old from (replicate (length out.old - from) 0) out.new }
{
    out[from..].fill(0);
}

// The whole image of a state. No call needs it, since each writes only what it changes: tests undo a decode with it, and what
// has built a state can store it. Neither the bytes of a number in another order nor a byte of the old image left beyond the
// live records meets the promise.
pub fn encode(image: &mut [u8; IMAGE_SIZE], p: Pipeline)
    requires { p.live ≤ max_live }
    ensures { image.new ≡ says.encode (listed p) }
{
    let live = usize::from(p.live);
    // An array by itself, as `orders_of` has it, is not copied on its way from there: lent out of the state it is, and both
    // together take a fifth longer.
    let orders = p.orders;
    put_header(image, p.n, p.live, p.clock, p.next);
    put_services(image, p.services);
    put_rows(image, RECORDS_AT, &orders[..live]);
    put_zeros(image, RECORDS_AT + RECORD_SIZE * live);
}

// The image of a fresh pipeline: the header, and zeros. No state has to be carried for it. Neither a clock of 1 nor a first
// ticket of 0 meets the promise.
pub fn encode_fresh(image: &mut [u8; IMAGE_SIZE], n: u8)
    ensures { image.new ≡ says.encode (fresh n) }
{
    put_header(image, n, 0, 0, 1);
    put_zeros(image, SERVICES_AT);
}
