//! What the program's commands do, over bytes and writers.
#![tactic(auto)]

mod bytes;
mod dry_run;
mod faults;
mod formatting;
mod laws;
mod playing;
mod showing;
mod shows;

pub use bytes::print_whole;
pub use dry_run::{DryFault, dry};
pub use faults::{of_opening, of_script};
pub use formatting::fresh_disk;
pub use laws::{dry_is_play, fresh_is_a_shop, run_tells_dry};
pub use playing::{play_file, play_image};
pub use showing::show_image;
