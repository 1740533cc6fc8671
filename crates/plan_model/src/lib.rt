// A periodic task of the standing table, as plan is lent it. The definitions of plan are in specs/, from the base of a task to the bytes that the program
// prints; what they mean, and the worked cases, are proved in proofs/.
#![tactic(auto)]

pub mod limits; // the figures

// "On time means R repeats below the deadline".
#[derive(Clone, Copy, Debug, Default, PartialEq, Eq)]
pub enum Verdict {
    OnTime,
    #[default]
    Late,
}

// Period, deadline and costs are asked; base, response and verdict are what plan fills in. The response has 64 bits: it can
// reach 8,928,048,000.
#[derive(Clone, Copy, Debug, Default, PartialEq, Eq)]
pub struct Task {
    pub period: u32,
    pub deadline: u32,
    pub costs: [u32; 8],
    pub base: u32,
    pub response: u64,
    pub verdict: Verdict,
}
