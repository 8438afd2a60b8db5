//! The operating system.
#![tactic(auto)]

mod calls;
mod open_files;
mod system_host;

pub use system_host::SystemHost;
