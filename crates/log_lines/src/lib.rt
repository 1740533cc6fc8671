// A line of a log (document 02, (iv)): what it records, the call that this is, made and compared, and what it makes of the log. A log is
// read line by line in the crate `log_reader`.
#![tactic(auto)]

pub mod fields; // what a line records
pub mod counts; // the lines counted, and the busy ticks
pub mod calls; // the call that a line records, made and compared
pub mod lines; // a line that has ended

use image::layout::IMAGE_SIZE;
use log_model::Rerun;

// A log that is run: what the lines that have ended make of it, and the image that their calls leave, which is lent. Each method leaves both
// as a definition of log_model says (`Leaves`), and the image the one that was lent.
#[derive(Drop)]
pub struct Running<'a> {
    pub rerun: Rerun,
    pub image: &'a mut [u8; IMAGE_SIZE],
}
