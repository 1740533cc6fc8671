// "zero bytes and unused records zero"
ghost use Rattle.std.specs.Prelude.{◌≡◌, ◌<◌, ◌≤◌, drop};
ghost use Rattle.model.specs.Limits.{max_stations, max_live};
ghost use Rattle.model.specs.Lists.{is_zero, part, all, concat, upward};
ghost use Rattle.model.specs.Layout.{image_size, header_zero_at};
ghost use Rattle.model.specs.Soundness.{zero_bytes_zero, unused_records_zero};
ghost use Rattle.soundness.specs.Zeros.{service_zeros, record_zeros};

use super::counted::Counted;
use image::layout::{
    HEADER_ZERO_AT, IMAGE_SIZE, RECORD_SIZE, RECORD_ZERO_AT, RECORDS_AT, SERVICE_SIZE,
    SERVICE_ZERO_AT, SERVICES_AT, STATION_AT,
};
use image::reader::{u16_at, u32_at};

// The zero bytes of the station entry at place i.
fn service_zero(image: &[u8; IMAGE_SIZE], i: usize) -> bool
    requires { i < max_stations }
    ensures { result ≡ all is_zero (service_zeros image.now i) }
{
    u16_at(image, SERVICES_AT + SERVICE_SIZE * i + SERVICE_ZERO_AT) == 0
}

// The zero bytes of the record at place i: three after the station, which read with it are a number of one byte, and four
// at the end.
fn record_zero(image: &[u8; IMAGE_SIZE], i: usize) -> bool
    requires { i < max_live }
    ensures { result ≡ all is_zero (record_zeros image.now i) }
{
    let at = RECORDS_AT + RECORD_SIZE * i;
    (u32_at(image, at + STATION_AT) < 256) & (u32_at(image, at + RECORD_ZERO_AT) == 0)
}

// The zero byte of the header.
#[tactic(auto, using(crate::proofs::Parts::zero_byte))]
fn header_zero(image: &[u8; IMAGE_SIZE]) -> bool
    ensures { result ≡ all is_zero (part image.now header_zero_at 1) }
{
    image[HEADER_ZERO_AT] == 0
}

// Those of all station entries, and of the first `live` records.
fn services_zero(image: &[u8; IMAGE_SIZE]) -> bool
    ensures { result ≡ all is_zero (concat (upward 0 max_stations (service_zeros image.now))) }
{
    let mut holds = true;
    for i in 0..8 {
        holds &= service_zero(image, i);
    }
    holds
}

fn records_zero(image: &[u8; IMAGE_SIZE], live: usize) -> bool
    requires { live ≤ max_live }
    ensures { result ≡ all is_zero (concat (upward 0 live (record_zeros image.now))) }
{
    let mut holds = true;
    for i in 0..live {
        holds &= record_zero(image, i);
    }
    holds
}

// Those from a place on. The bytes are laid one over the other and asked for once, so that a compiler can take many of them
// together.
fn zero_from(image: &[u8; IMAGE_SIZE], at: usize) -> bool
    requires { at ≤ image_size }
    ensures { result ≡ all is_zero (drop at image.now) }
{
    image[at..].iter().fold(0, |found, byte| found | *byte) == 0
}

impl Counted<'_> {
    // "zero bytes .. zero". Neither an image with a 1 in the header's zero byte let through, nor one refused for a byte after
    // the live records, meets the promise.
    pub fn zero_bytes_zero(self) -> bool
        ensures { result ≡ zero_bytes_zero self.entry.image.now }
    {
        header_zero(self.image) & services_zero(self.image) & records_zero(self.image, self.live)
    }

    // "unused records zero". Neither an image of 31 live records whose last byte is 1 let through, nor one refused for a byte
    // of the last live record, meets the promise.
    #[tactic(auto, unfolding(model::specs::Soundness::unused_records_zero))]
    pub fn unused_records_zero(self) -> bool
        ensures { result ≡ unused_records_zero self.entry.image.now }
    {
        zero_from(self.image, RECORDS_AT + RECORD_SIZE * self.live)
    }
}
