// What the programs that try the calls have in common: orders that are drawn, and the lines that they print.
#![tactic(auto)]

pub mod draw; // the generator, and what is drawn
pub mod case_lines; // the line of a call
pub mod soak_rows; // what a long run carries, and the row that is printed of it
