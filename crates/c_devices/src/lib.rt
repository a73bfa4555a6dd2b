//! Clauses `device(NAME)`: whether the name is that of a loop around, all of whose values are devices.
#![tactic(auto)]

mod blocks;
mod devices;
mod heads;
mod lines;

pub use devices::on_devices;
