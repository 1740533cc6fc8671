// An image whose counts are in range, so that every record that it counts is there to be read.
ghost use Rattle.std.specs.Prelude.{◌≡◌, false, ◌≤◌, MatchOption};
ghost use Rattle.model.specs.Limits.{max_stations, max_live};
ghost use Rattle.model.specs.Bytes.{byte};
ghost use Rattle.model.specs.Layout.{station_count_at};
ghost use Rattle.model.specs.Image.{live_count};
ghost use Rattle.model.specs.Soundness.{sound};
ghost use Rattle.soundness.specs.Whole.{later_hold};

use image::layout::{IMAGE_SIZE, LIVE_COUNT_AT, STATION_COUNT_AT};
use model::limits::{MAX_LIVE, MAX_STATIONS};

// "N 1 to 8" and "live at most 32": the image, and what it says of both.
#[derive(Clone, Copy)]
pub struct Counted<'a> {
    pub image: &'a [u8; IMAGE_SIZE],
    pub n: u32,
    pub live: usize,
    pub ghost stations: { n ≡ byte image.now station_count_at },
    pub ghost orders: { live ≡ live_count image.now },
    pub ghost in_range: { (1 ≤ n) × (n ≤ max_stations) × (live ≤ max_live) },
}

impl<'a> Counted<'a> {
    // Neither an image of 33 live orders counted nor one of eight stations turned away meets the promise.
    #[tactic(auto, using(crate::proofs::whole::CountLaws::counts_unsound, crate::proofs::whole::CountLaws::later_sound))]
    pub fn new(image: &'a [u8; IMAGE_SIZE]) -> Option<Counted<'a>>
        ensures { MatchOption result (sound image.now ≡ false) (λ counted. (counted.image.now ≡ image.now) × (later_hold image.now ≡ sound image.now)) }
    {
        let n = u32::from(image[STATION_COUNT_AT]);
        let live = image[LIVE_COUNT_AT];
        if (n < 1) | (MAX_STATIONS < n) | (MAX_LIVE < live) {
            return None;
        }
        Some(Counted {
            image,
            n,
            live: usize::from(live),
        })
    }
}
