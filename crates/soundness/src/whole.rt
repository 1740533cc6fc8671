// Document 01, "Sound means", for a whole image: whether every clause holds.
ghost use Rattle.std.specs.Prelude.{◌≡◌};
ghost use Rattle.model.specs.Lists.{all};
ghost use Rattle.model.specs.Image.{orders_of};
ghost use Rattle.model.specs.Soundness as says;
ghost use Rattle.soundness.specs.Holds.{record_holds};
ghost use Rattle.soundness.specs.Whole.{later_hold};

use super::counted::Counted;
use super::record_flaws::{flaws_with, ranks_with, ticks_hold};
use super::row_limits::Limits;
use super::rows::zero_beyond;
use image::decode::order_at;
use image::layout::{CLOCK_AT, IMAGE_SIZE};
use image::reader::u32_at;
use model::limits::LAST_TICK;

impl Counted<'_> {
    // Whether each live order passes every clause. The ticks of a record decide at once, its rows with those of the others after
    // the last. Neither a flaw of the last order alone let through, nor an order refused for a cost of 6,000, meets the promise.
    fn all_hold(self, clock: u32) -> bool
        ensures { result ≡ all (record_holds self.entry.n clock) (orders_of self.entry.image.now self.entry.live) }
    {
        let limits = Limits::new(self.n);
        let mut flaws = [0u16; 8];
        let mut ranks = [0u8; 8];
        for i in 0..self.live {
            let o = order_at(self.image, i);
            if !ticks_hold(limits, clock, o) {
                return false;
            }
            // By way of new variables: a call's result that is laid into an array that stands is not covered yet.
            let more_flaws = flaws_with(flaws, limits, o);
            flaws = more_flaws;
            let more_ranks = ranks_with(ranks, o);
            ranks = more_ranks;
        }
        zero_beyond(0, flaws) & zero_beyond(self.n, ranks)
    }

    // The clauses after the counts: with these in range every record is there to be read. The station entries are read last: a
    // compiler would keep them in memory through the passes over the records.
    #[tactic(auto, using(crate::proofs::whole::LaterLaws::hold_is))]
    fn later_hold(self) -> bool
        ensures { result ≡ later_hold self.entry.image.now }
    {
        let image = self.image;
        let clock = u32_at(image, CLOCK_AT);
        let orders = (clock <= LAST_TICK)
            & self.zero_bytes_zero()
            & self.unused_records_zero()
            & self.tickets_in_order()
            & self.all_hold(clock);
        orders & self.idle_beyond() & self.services_in_order()
    }
}

// Question 4, "Image sound?". Every call asks it, so it goes by itself and not by way of the first flaw, which takes four
// times as long. Neither yes to an image with a broken clause nor no to one with none meets the promise.
pub fn sound(image: &[u8; IMAGE_SIZE]) -> bool
    ensures { result ≡ says.sound image.now }
{
    Counted::new(image).is_some_and(|counted| counted.later_hold())
}
