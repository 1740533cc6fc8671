// A log read byte by byte (document 02, (iv)): the state that is fed, which does not grow with the log, and what is printed of it.
#![tactic(auto)]

pub mod feed; // the bytes of a log, chunk by chunk
pub mod rounding; // the last column
pub mod print; // what is printed at the end
