// What a line records: its letter, and the numbers after it (document 02, (iv)): "all single-spaced decimals without leading zeros", none
// "too large for its field". A value is cast where it is proved to fit.
ghost use Rattle.std.specs.Prelude.{◌≡◌, ◌+◌, ◌*◌, ◌≤◌, length, take};
ghost use Rattle.model.specs.Limits.{max_stations};
ghost use Rattle.log_model.specs.Lines as defined;
ghost use Rattle.log_lines.specs.Orders.{OrderFits, order_of};
ghost use Rattle.log_lines.specs.Recorded as recorded;

use log_model::limits::{MOST_8, MOST_16, MOST_32};
use model::Block;
use model::limits::MAX_STATIONS;
use text::numbers::numbers_in;

// An order of eight stations has a due-in, eight ranks, eight costs, a number and a ticket.
pub const MAX_FIELDS: usize = 19;

// What a line of a call records: an order that was offered, with the number and the ticket of its reply, or the ticket out of a done advance.
#[derive(Clone, Copy, Debug, PartialEq, Eq)]
pub enum Recorded {
    Offered {
        order: Block,
        number: u32,
        ticket: u32,
    },
    Advanced {
        ticket: u32,
    },
}

// The largest value of each field of an order of n stations, as many as it has, and then others. Ruled out: 16 bits for a rank; 8 for the
// first cost.
fn order_fields(n: usize) -> [u32; MAX_FIELDS]
    requires { n ≤ max_stations }
    ensures { take (2 * n + 3) result ≡ defined.order_fields n }
{
    let mut most = [MOST_32; MAX_FIELDS];
    most[1..=n].fill(MOST_8);
    most[n + 1..=2 * n].fill(MOST_16);
    most
}

// The order of such values: its ranks follow the due-in, and its costs the ranks. Ruled out: the due-in as the first rank, the last rank as the
// first cost; a cost as the rank of a station beyond N, the recorded number as its cost.
fn order_of(n: usize, values: &[u32; MAX_FIELDS]) -> Block
    requires { OrderFits n values.now }
    ensures { result ≡ order_of n values.now }
{
    let mut order = Block {
        due_in: values[0],
        ranks: [0; 8],
        costs: [0; 8],
    };
    for i in 0..n {
        order.ranks[i] = values[1 + i] as u8;
        order.costs[i] = values[1 + n + i] as u16;
    }
    order
}

// The station count that a first line says, if it has the form. Ruled out: a count of none, or of nine; one that ends with a space.
pub fn stations_in(line: &[u8]) -> Option<u32>
    ensures { result ≡ recorded.stations_in line.now }
{
    let numbers = line.strip_prefix(b"N ")?;
    let [n] = numbers_in::<1>(numbers, &[MOST_32])?;
    (1..=MAX_STATIONS).contains(&n).then_some(n)
}

// What a later line records in the log of a cabinet of n stations, if it has the form. Ruled out: a second line of a station count; a line with
// the fields of another station count; a line of the letter alone.
pub fn call_in(n: usize, line: &[u8]) -> Option<Recorded>
    requires { n ≤ max_stations }
    ensures { result ≡ recorded.call_in n line.now }
{
    if let Some(numbers) = line.strip_prefix(b"T ") {
        let [ticket] = numbers_in::<1>(numbers, &[MOST_32])?;
        return Some(Recorded::Advanced { ticket });
    }
    let numbers = line.strip_prefix(b"O ")?;
    let most = order_fields(n);
    let values = numbers_in::<MAX_FIELDS>(numbers, &most[..2 * n + 3])?;
    Some(Recorded::Offered {
        order: order_of(n, &values),
        number: values[1 + 2 * n],
        ticket: values[2 + 2 * n],
    })
}
