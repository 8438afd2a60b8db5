//! The drive as a program sees it: its channels, its commands and its error channel.
#![tactic(auto)]

mod closing;
mod commands;
mod drive;
mod faults;
mod open_file;
mod open_files;
mod opening;
mod reading;
mod status;
mod text;
mod writing;

pub use drive::Drive;
pub use faults::Dead;
pub use status::Status;
