// The plan program but for reading and writing: input bytes to output bytes.
#![tactic(auto)]

pub mod answer; // the task set of an input, or why there is none
pub mod task_lines; // the task lines
pub mod input; // the questions of an input's form
pub mod output; // a table printed
pub mod print; // what the program prints for any input
