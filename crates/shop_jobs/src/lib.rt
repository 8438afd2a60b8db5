//! Shops over a runtime: scripts that are played, and services.
#![tactic(auto)]

mod durable_runs;
mod formatting;
mod job_outputs;
mod landing_logs;
mod logged_plays;
mod logged_runs;
mod new_shops;
mod playing;
mod playing_logs;
mod reply_lines;
mod serving_logs;
mod shop_runs;
mod watched_files;

pub use durable_runs::play_durably;
pub use formatting::do_format;
pub use job_outputs::{JobOutput, print_to_writer};
pub use logged_plays::play_logged;
pub use logged_runs::serve_logged;
pub use new_shops::do_format_new;
pub use playing::{do_dry, do_playing};
pub use playing_logs::do_logged_playing;
pub use serving_logs::do_logged_serving;
pub use shop_runs::{dry_run, play_run};
pub use watched_files::RepliesWhileNamed;
