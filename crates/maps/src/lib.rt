//! What the directives of a run did on the tables of the devices: a line for each creation, copy, removal and count.
#![tactic(auto)]

mod blocks;
mod deeds;
mod lines;
mod moves;
mod tables;

pub use tables::{maps_text, run_maps_text};
