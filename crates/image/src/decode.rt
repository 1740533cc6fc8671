// What an image says, as a state by value. Whether the image is sound is asked elsewhere: here its records need only be
// there to be read.
ghost use Rattle.std.specs.Prelude.{◌≡◌, ◌++◌, ◌-◌, ◌<◌, ◌≤◌, length, replicate};
ghost use Rattle.model.specs.Limits.{max_stations, max_live};
ghost use Rattle.model.specs.Layout.{service_size, record_size, service_part, record_part};
ghost use Rattle.model.specs.Image.{live_count, service_of, order_of, services_of, orders_of};
ghost use Rattle.model.specs.Image as says;
ghost use Rattle.image.specs.Pipeline.{unused, padded};

use super::layout::{
    ACCEPTED_AT, CLOCK_AT, COSTS_AT, DUE_AT, IMAGE_SIZE, LEFT_AT, LIVE_COUNT_AT, MAXIMA_AT,
    NEXT_AT, RANKS_AT, RECORD_SIZE, RECORDS_AT, SERVED_AT, SERVICE_SIZE, SERVICES_AT, STATION_AT,
    STATION_COUNT_AT, SUM_AT, TICKET_AT,
};
use super::pipeline::Pipeline;
use super::reader::{eight_bytes_at, eight_halves_at, part_at, u16_at, u32_at};
use model::{Order, Service};
use std::array;

#[tactic(auto, unfolding(model::specs::Image::service_of))]
fn service_of(part: &[u8; SERVICE_SIZE]) -> Service
    ensures { result ≡ service_of part.now }
{
    Service {
        ticket: u32_at(part, SERVED_AT),
        left: u16_at(part, LEFT_AT),
    }
}

#[tactic(auto, unfolding(model::specs::Image::order_of))]
fn order_of(part: &[u8; RECORD_SIZE]) -> Order
    ensures { result ≡ order_of part.now }
{
    Order {
        ticket: u32_at(part, TICKET_AT),
        accepted: u32_at(part, ACCEPTED_AT),
        due: u32_at(part, DUE_AT),
        sum: u32_at(part, SUM_AT),
        station: u32::from(part[STATION_AT]),
        ranks: eight_bytes_at(part, RANKS_AT),
        costs: eight_halves_at(part, COSTS_AT),
        maxima: eight_halves_at(part, MAXIMA_AT),
    }
}

// The station entry at place i, counted from 0. Neither the next entry nor ticket and ticks to go exchanged meets the promise.
pub fn service_at(image: &[u8; IMAGE_SIZE], i: usize) -> Service
    requires { i < max_stations }
    ensures { result ≡ service_of (service_part image.now i) }
{
    service_of(part_at(image, SERVICES_AT + SERVICE_SIZE * i))
}

// The record at place i, counted from 0. Neither the next record nor costs in the place of maxima meets the promise.
pub fn order_at(image: &[u8; IMAGE_SIZE], i: usize) -> Order
    requires { i < max_live }
    ensures { result ≡ order_of (record_part image.now i) }
{
    order_of(part_at(image, RECORDS_AT + RECORD_SIZE * i))
}

pub fn services_of(image: &[u8; IMAGE_SIZE]) -> [Service; 8]
    ensures { result ≡ services_of image.now }
{
    array::from_fn(|i| service_at(image, i))
}

// The first `live` records, and unused ones up to 32. The array is a local of its own, as the one that `encode` reads
// is: then the compiler keeps one array of records between the two, where a part of a larger struct would be copied.
pub fn orders_of(image: &[u8; IMAGE_SIZE], live: usize) -> [Order; 32]
    requires { live ≤ max_live }
    ensures { result ≡ orders_of image.now live ++ replicate (max_live - live) unused }
{
    let mut orders = [Order::default(); 32];
    for (i, order) in orders[..live].iter_mut().enumerate() {
        *order = order_at(image, i);
    }
    orders
}

// What an image says, with its records as `orders_of` reads them.
#[tactic(auto, using(crate::proofs::pipeline::Rows::parts_padded))]
pub fn state_with(image: &[u8; IMAGE_SIZE], orders: [Order; 32]) -> Pipeline
    requires { (live_count image.now ≤ max_live) × (orders ≡ orders_of image.now (live_count image.now) ++ replicate (max_live - live_count image.now) unused) }
    ensures { result ≡ padded (says.decode image.now) }
{
    Pipeline {
        n: image[STATION_COUNT_AT],
        live: image[LIVE_COUNT_AT],
        clock: u32_at(image, CLOCK_AT),
        next: u32_at(image, NEXT_AT),
        services: services_of(image),
        orders,
    }
}

// What an image says. Neither the bytes of a number in another order nor the clock read for the next ticket meets the promise.
pub fn decode(image: &[u8; IMAGE_SIZE]) -> Pipeline
    requires { live_count image.now ≤ max_live }
    ensures { result ≡ padded (says.decode image.now) }
{
    state_with(image, orders_of(image, usize::from(image[LIVE_COUNT_AT])))
}
