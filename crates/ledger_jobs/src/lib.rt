//! The program over a runtime: its jobs, the files that they may touch, and lines for a person.
#![tactic(auto)]

mod announcements;
mod bad_lines;
mod cures;
mod dispatch;
mod explanations;
mod failure_lines;
mod formats;
mod job_files;
mod jobs;
mod line_lines;
mod made_paths;
mod meanings;
mod near_names;
mod read_again;
mod refusal_subjects;
mod size_lines;
mod text_warnings;
mod typed_names;

pub use announcements::{announce, tell_verdict};
pub use dispatch::do_job;
pub use explanations::explain;
pub use image_file::ClosedStreams;
pub use job_files::files_of;
pub use jobs::Job;
pub use meanings::meaning_of;
