// Document 01, "The course of one tick", in its order: the starts, one tick less to go at each station, and who leaves.
#![tactic(auto)]

pub mod selection; // who goes first at each idle station
pub mod starting; // the starts
pub mod entries; // one tick less to go
pub mod steps; // starts and tick over a state by value
pub mod exits; // the stations that are left, and the ticket out
pub mod leaving; // who moves on and who is out, in the image's records
