// Document 02, (i), "Order by paper format": the order block that such an order stands for. Its costs are worked out from the
// table of long sides and from the station sheet; everything after the block is that of any order.
ghost use Rattle.std.specs.Prelude.{◌≡◌, ℕ, ◌+◌, ◌≤◌, take, leb};
ghost use Rattle.model.specs.Limits.{max_stations, max_format};
ghost use Rattle.model.specs.Lists.{at, all, rounded_up};
ghost use Rattle.model.specs.Formats.{long_side, up_to_station};
ghost use Rattle.call_laws.specs.FormatExact.{Readable};
ghost use Rattle.admission.specs.Formats.{held_cost, held_block, said};

use image::layout::{SHEET_FIXED_AT, SHEET_SPEEDS_AT};
use image::reader::eight_halves_at;
use model::Block;
use std::array;

// The long sides in millimetres: A1 to A5, then B1 to B5.
const LONG_SIDES: [u16; 10] = [841, 594, 420, 297, 210, 1000, 707, 500, 353, 250];

// The long side of a format. Neither the side of the format before nor the short side meets the promise.
fn long_side(format: u32) -> u16
    requires { (1 ≤ format) × (format ≤ max_format) }
    ensures { result ≡ long_side format }
{
    LONG_SIDES[(format - 1) as usize]
}

// The cost at a station, as two bytes hold it: long side divided by speed. Neither the quotient rounded down nor a cost that
// wraps meets the promise.
fn station_cost(side: u16, fixed: u16, speed: u16) -> u16
    requires { 1 ≤ speed }
    ensures { result ≡ held_cost (fixed + rounded_up side speed) }
{
    fixed.saturating_add(side.div_ceil(speed))
}

// The costs of stations 1 to n. A cost beyond n does not meet the promise.
fn station_costs(n: u32, side: u16, fixed: [u16; 8], speeds: [u16; 8]) -> [u16; 8]
    requires { (n ≤ max_stations) × ((k : ℕ) → 1 ≤ k → k ≤ n → 1 ≤ at 0 speeds k) }
    ensures { result ≡ up_to_station n (λ k. held_cost (at 0 fixed k + rounded_up side (at 0 speeds k))) }
{
    let mut row = [0; 8];
    for k in 0..n as usize {
        row[k] = station_cost(side, fixed[k], speeds[k]);
    }
    row
}

// One rank at stations 1 to n. The rank beyond n as well does not meet the promise. All eight entries are written: a loop up to
// n is compiled to a call.
fn station_ranks(n: u32, rank: u8) -> [u8; 8]
    ensures { result ≡ up_to_station n (λ k. rank) }
{
    array::from_fn(|k| if k < n as usize { rank } else { 0 })
}

// Question 20: no speed of 0 up to station n. A speed of 0 at the last of these let through, or one beyond them asked for, does
// not meet the promise.
pub fn moving(n: u32, speeds: [u16; 8]) -> bool
    ensures { result ≡ all (leb 1) (take n speeds) }
{
    speeds.iter().take(n as usize).all(|speed| 1 <= *speed)
}

// What an order by format gives: format, due-in, one rank for all stations, and the station sheet as it is lent.
#[derive(Clone, Copy)]
pub struct FormatOrder<'a> {
    pub format: u32,
    pub due_in: u32,
    pub rank: u8,
    pub sheet: &'a [u8],
}

impl FormatOrder<'_> {
    // The block. Neither another rank than the one given nor fixed ticks read from the speeds meet the promise.
    pub fn block(self, n: u32) -> Block
        requires { Readable n (said self) }
        ensures { result ≡ held_block n (said self.entry) }
    {
        let fixed = eight_halves_at(self.sheet, SHEET_FIXED_AT);
        let speeds = eight_halves_at(self.sheet, SHEET_SPEEDS_AT);
        Block {
            due_in: self.due_in,
            ranks: station_ranks(n, self.rank),
            costs: station_costs(n, long_side(self.format), fixed, speeds),
        }
    }
}
