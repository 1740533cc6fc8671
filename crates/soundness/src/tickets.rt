// "live tickets at least 1, rising, and below the next ticket where that is not 0"
ghost use Rattle.std.specs.Prelude.{◌≡◌};
ghost use Rattle.model.specs.Image.{decode};
ghost use Rattle.model.specs.Soundness.{tickets_in_order};

use super::counted::Counted;
use image::layout::{NEXT_AT, RECORD_SIZE, RECORDS_AT, TICKET_AT};
use image::reader::u32_at;

impl Counted<'_> {
    // "live tickets at least 1, rising, and below the next ticket where that is not 0", in one pass: a ticket above the one
    // before it, and the first above 0, is at least 1. Neither two live orders with one ticket let through, nor an image with
    // next ticket 0 refused, meets the promise.
    pub fn tickets_in_order(self) -> bool
        ensures { result ≡ tickets_in_order (decode self.entry.image.now) }
    {
        let image = self.image;
        let next = u32_at(image, NEXT_AT);
        let mut holds = true;
        let mut last = 0;
        for i in 0..self.live {
            let ticket = u32_at(image, RECORDS_AT + RECORD_SIZE * i + TICKET_AT);
            holds &= (last < ticket) & ((next == 0) | (ticket < next));
            last = ticket;
        }
        holds
    }
}
