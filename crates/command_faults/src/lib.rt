//! Why a command over an image isn't done; and what every command does alike: an image taken into memory, and bytes
//! handed to a writer.
#![tactic(auto)]

mod faults;
mod files;
mod loading;
mod output;

pub use faults::CommandFault;
pub use files::file_of;
pub use loading::load;
pub use output::{flush, print_line, print_text, put};
