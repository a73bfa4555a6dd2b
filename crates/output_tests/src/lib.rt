//! Tests of what the program writes: output without room, and texts inside a page and a graph.
#![tactic(auto)]

#[cfg(test)]
mod commands;
#[cfg(test)]
mod shown_text_tests;
