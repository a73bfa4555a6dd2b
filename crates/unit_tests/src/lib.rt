//! Tests that call public functions of several crates: on values, event by event, and on threads.
#![tactic(auto)]

#[cfg(test)]
mod counters_tests;
#[cfg(test)]
mod device_tests;
#[cfg(test)]
mod fine_tests;
#[cfg(test)]
mod footprint_tests;
#[cfg(test)]
mod graph_tests;
#[cfg(test)]
mod in_c_tests;
#[cfg(test)]
mod jobs;
#[cfg(test)]
mod kernel_tests;
#[cfg(test)]
mod limits;
#[cfg(test)]
mod order_tests;
#[cfg(test)]
mod orders;
#[cfg(test)]
mod present_tests;
#[cfg(test)]
mod report_tests;
#[cfg(test)]
mod rooms;
#[cfg(test)]
mod rows;
#[cfg(test)]
mod sources;
#[cfg(test)]
mod splits;
#[cfg(test)]
mod taskgraph_tests;
#[cfg(test)]
mod threads;
#[cfg(test)]
mod written_tests;
