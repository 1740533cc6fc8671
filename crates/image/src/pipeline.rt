// The state that code carries.
use model::{Order, Service};

// The state that code carries: as the definitions have it, with room for 32 records, of which the first `live` are in use
// (specs/Pipeline.antt: `padded`, `listed`). The count stands beside the array: with an ArrayVec<Order, 32> of the library's
// arrayvec, which is not Copy either, decode and encode together took 12 to 35 % longer (20 to 1 live orders).
#[derive(Clone, Copy)]
pub struct Pipeline {
    pub n: u8,
    pub live: u8,
    pub clock: u32,
    pub next: u32,
    pub services: [Service; 8],
    pub orders: [Order; 32],
}
