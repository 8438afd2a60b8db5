//! Stories of a shop on a machine in memory, by seeds: commands run, lines are sent, calls fail, programs are killed, power goes, and
//! people move files. After each event the files are compared with the model of the shop.
#![tactic(auto)]

mod asked;
mod changes;
mod counts;
mod hands;
mod judging;
mod looks;
mod meetings;
mod old_files;
mod plays;
mod readers;
mod recoveries;
mod runs;
mod services;
mod stops;
mod stories;
mod words;

pub use counts::{Counts, EVENTS, Event};
pub use plays::play_words;
pub use runs::Program;
pub use stops::Stop;
pub use stories::Story;
