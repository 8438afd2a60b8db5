//! A log of a disk's images, in a file of a host.
#![tactic(auto)]

mod appending;
mod laying_out;
mod log_room;
mod logs;

pub use log_room::BlockRoom;
pub use logs::KeptLog;
