// An image explained: a state as text, the first clause of soundness that is broken, and what there is to say of any bytes.
#![tactic(auto)]

pub mod report; // a state as text
pub mod first_flaw; // which clause is broken first
pub mod explanation; // what `inspect` prints of any bytes
