//! Checks the layout of a 1541 disk, and repairs what is inexact in it.
#![tactic(auto)]

mod blocks;
mod checking;
mod entry;
mod files;
mod keeping;
mod maps;
mod mending;
mod owners;
mod parts;
mod recounting;
mod repairing;
mod sides;
mod survey_outcome;
mod survey_walk;
mod verdicts;

pub use checking::check;
pub use repairing::{repair, repair_keeping};
pub use survey_outcome::Survey;
pub use survey_walk::survey;
pub use verdicts::{unsoundness, verdict};
