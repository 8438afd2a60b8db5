//! The files of a job, opened, locked, landed and read; and how a job ends.
#![tactic(auto)]

mod asides;
mod endings;
mod extents;
mod files;
mod image_logs;
mod locks;
mod losses;
mod new_images;
mod outcomes;
mod put_images;
mod readings;

pub use asides::{Aside, has_no_aside, second_aside};
pub use endings::{Ending, end, tell};
pub use extents::Extent;
pub use files::{STANDARD_INPUT, metadata_of, script_to_play, size_of};
pub use image_logs::{
    accept_loss, log_refusal, logged_image, opened_alone, opened_and_landed, opened_shared,
    see_changeable, see_no_lost_log, see_size,
};
pub use locks::{read_owned, read_shared, read_synced};
pub use losses::{Loss, loss_refusal, see_log_away, see_untagged, short_refusal, shortfall_in};
pub use new_images::make_image;
pub use outcomes::run_end;
pub use put_images::put_image;
pub use readings::{image_as, image_at, image_of_file, long_image_at};
