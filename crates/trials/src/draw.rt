// What a long run draws, by a generator of 32 bits. specs/Draw.antt says what each is.
ghost use Rattle.std.specs.Prelude.{◌≡◌, ◌+◌, ◌*◌, ◌%◌, ◌<◌, ◌≤◌};
ghost use Rattle.model.specs.Limits.{max_stations};
ghost use Rattle.trials.specs.Draw.{stepped, apart, picked, cost, costs, rank, ranks, most_cost, due_in, drawn_for, drawn_block};

use image::block::order_block;
use image::layout::BLOCK_SIZE;
use model::Block;
use std::array;

// One step of a generator that multiplies and adds, in 32 bits.
fn generated(s: u32, times: u32, plus: u32) -> u32
    ensures { result ≡ (s * times + plus) % 4294967296 }
{
    s.wrapping_mul(times).wrapping_add(plus)
}

// One step of the generator. Ruled out: a step that leaves the seed as it is; a seed of more than 32 bits.
#[tactic(auto, unfolding(crate::specs::Draw::stepped))]
pub fn step(s: u32) -> u32
    ensures { result ≡ stepped s }
{
    generated(s, 1664525, 1013904223)
}

// Another place of its cycle.
#[tactic(auto, unfolding(crate::specs::Draw::apart))]
fn jump(s: u32) -> u32
    ensures { result ≡ apart s }
{
    generated(s, 69069, 1)
}

// A number below k. Ruled out: the low bits of the seed, which repeat soon.
#[tactic(auto, unfolding(crate::specs::Draw::picked))]
pub fn pick(s: u32, k: u32) -> u32
    requires { 0 < k }
    ensures { (result ≡ picked s k) × (result < k) }
{
    s / 65536 % k
}

// The cost at place k, of the seed that is drawn for it.
#[tactic(auto, unfolding(crate::specs::Draw::cost))]
fn cost_of(s: u32, n: usize, most: u32, k: usize) -> u16
    requires { (0 < most) × (most < 65536) }
    ensures { result ≡ cost s n most k }
{
    if k < n {
        return (1 + pick(s, most)) as u16;
    }
    0
}

// The costs. Ruled out: a cost beyond the n stations; one cost for all of them.
fn draw_costs(seed: u32, n: usize, most: u32) -> [u16; 8]
    requires { (0 < most) × (most < 65536) }
    ensures { result ≡ costs seed n most }
{
    // No `from_fn`: its closure would change the seed that it captures, and nothing would be known of the row.
    let mut row = [0; 8];
    let mut s = seed;
    for k in 0..8 {
        s = step(s);
        row[k] = cost_of(s, n, most, k);
    }
    row
}

// The rank at place k, by the two bits of the seed that begin at `unit`.
#[tactic(auto, unfolding(crate::specs::Draw::rank))]
fn rank_of(s: u32, n: usize, k: usize, unit: u32) -> u8
    requires { 0 < unit }
    ensures { result ≡ rank s n k unit }
{
    if k < n {
        return (s / unit % 4) as u8;
    }
    0
}

// Where the two bits of each rank begin.
const UNITS: [u32; 8] = [
    65536, 262144, 1048576, 4194304, 16777216, 67108864, 268435456, 1073741824,
];

// The ranks. Ruled out: a rank beyond the n stations; one rank for all of them.
fn draw_ranks(s: u32, n: usize) -> [u8; 8]
    ensures { result ≡ ranks s n }
{
    array::from_fn(|k| rank_of(s, n, k, UNITS[k]))
}

#[tactic(auto, unfolding(crate::specs::Draw::most_cost))]
fn most_cost(v: u32) -> u32
    ensures { (result ≡ most_cost v) × (0 < result) × (result < 65536) }
{
    if v < 40 {
        return 6;
    }
    if v < 60 {
        return 30;
    }
    if v < 63 {
        return 200;
    }
    6001
}

#[tactic(auto, unfolding(crate::specs::Draw::due_in))]
fn draw_due_in(v: u32, s: u32) -> u32
    ensures { result ≡ due_in v s }
{
    if v < 1 {
        return 59994 + pick(s, 12);
    }
    if v < 3 {
        return 0;
    }
    if v < 4 {
        return pick(s, 100);
    }
    pick(s, 3000)
}

#[tactic(auto, unfolding(crate::specs::Draw::drawn_for))]
fn drawn_for(v: u32, n: usize) -> usize
    requires { (1 ≤ n) × (n ≤ max_stations) }
    ensures { result ≡ drawn_for v n }
{
    if v < 1 {
        return n - 1;
    }
    if v < 2 {
        return n + 1;
    }
    n
}

// The order block that a seed draws for a cabinet of n stations. Ruled out: the ranks drawn where the costs are, so that they
// rise together; costs for another number of stations than ranks.
#[tactic(auto, unfolding(crate::specs::Draw::drawn_block))]
pub fn draw_order(s: u32, n: usize) -> [u8; BLOCK_SIZE]
    requires { (1 ≤ n) × (n ≤ max_stations) }
    ensures { result ≡ drawn_block s n }
{
    let a = step(s);
    let b = step(a);
    let c = step(b);
    let stations = drawn_for(pick(b, 24), n);
    let due_in = draw_due_in(pick(c, 8), jump(s));
    let ranks = draw_ranks(jump(b), stations);
    let costs = draw_costs(jump(a), stations, most_cost(pick(a, 64)));
    order_block(Block {
        due_in,
        ranks,
        costs,
    })
}
