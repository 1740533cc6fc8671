// What is known of a log while it is read (document 02, (iv)). The definitions are in specs/: the form of a line, what a log says, what
// is printed for it, and how that is found byte by byte, in a state that does not grow. What they mean, and the worked cases, are
// proved in proofs/ and in the crate `log_laws`.
#![tactic(auto)]

pub mod limits; // the figures

// Both records stand in the definitions of specs/Reading, and theorems speak of their fields (`ReadsAsWhole`, `WhateverChunks`): so 0 says that there is
// no such line, in place of an Option, and the bytes that are held stand beside their count.

// What the lines that have ended make of a log: the number of the line that is read, from 1, or 0 when lines are no longer
// counted; N, once the first line has ended; the numbers of the first line of another form and of the first that disagrees, or
// 0; the ticks that passed, and those in which each station was busy.
#[derive(Clone, Copy, Debug, PartialEq, Eq)]
pub struct Rerun {
    pub line: u64,
    pub stations: u32,
    pub refused: u64,
    pub differs: u64,
    pub ticks: u32,
    pub busy: [u32; 8],
}

// The state of a log that is read: the line that has not ended yet stands in the first `held` bytes of `pending`; of one that
// is longer than any line of the form, the first 220 bytes.
#[derive(Clone, Copy, Debug, PartialEq, Eq)]
pub struct Reading {
    pub rerun: Rerun,
    pub pending: [u8; 220],
    pub held: usize,
}
