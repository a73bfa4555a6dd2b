//! What an open item does next, action by action: each load, each store, each update, each copied cell and each action
//! on a table by itself.
#![tactic(auto)]

pub use crate::action::{Action, Given};
pub use crate::control::Control;
pub use crate::single::{act, number_of};
pub use crate::starting::open;
pub use crate::strand::Strand;

mod action;
mod advance;
mod begin;
mod control;
mod fork;
mod frame;
mod maps;
mod nest;
mod scalars;
mod single;
mod stack;
mod starting;
mod strand;
mod take;
mod turns;
mod unordered;
