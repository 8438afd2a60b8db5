//! A system in memory. It keeps each world that it had.
#![tactic(auto)]

mod current;
mod mem_host;
mod moves;
mod putting;

pub use mem_host::{Hand, MemHost, Taken};
pub use moves::Move;
