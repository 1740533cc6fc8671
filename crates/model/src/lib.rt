// What an image holds of a station and of a live order, what an order block holds, and document 01's limits. The definitions are in specs/, the worked
// cases in proofs/.
#![tactic(auto)]

ghost use Rattle.std.specs.Prelude.{◌≡◌, ◌&&◌, not};
ghost use Rattle.model.specs.Lists.{is_zero};

pub mod limits; // the figures

// A station's service entry: the ticket in service and its ticks to go; (0, 0) is idle.
#[derive(Clone, Copy, Debug, Default, PartialEq, Eq)]
pub struct Service {
    pub ticket: u32,
    pub left: u16,
}

impl Service {
    // Whether nobody is in service.
    pub fn is_idle(self) -> bool
        ensures { result ≡ is_zero self.ticket }
    {
        self.ticket == 0
    }

    // Whether nothing is to go: so it is at an idle station, and where an order is about to leave.
    pub fn is_done(self) -> bool
        ensures { result ≡ is_zero self.left }
    {
        self.left == 0
    }

    // Whether an order is about to leave: document 01, "An order with nothing to go leaves its station".
    pub fn is_leaving(self) -> bool
        ensures { result ≡ (not (is_zero self.ticket) && is_zero self.left) }
    {
        !self.is_idle() & self.is_done()
    }
}

// The record of a live order. The station has four bytes so that no byte of an `Order` is padding, and an array of
// unused ones is a fill. `sum` and `maxima` are over its interference set (document 01: company): the members'
// largest costs added up, and the largest cost that a member has at each station.
#[derive(Clone, Copy, Debug, Default, PartialEq, Eq)]
pub struct Order {
    pub ticket: u32,
    pub accepted: u32,
    pub due: u32,
    pub sum: u32,
    pub station: u32,
    pub ranks: [u8; 8],
    pub costs: [u16; 8],
    pub maxima: [u16; 8],
}

// An order as it is offered (document 01: order block).
#[derive(Clone, Copy, Debug, Default, PartialEq, Eq)]
pub struct Block {
    pub due_in: u32,
    pub ranks: [u8; 8],
    pub costs: [u16; 8],
}
