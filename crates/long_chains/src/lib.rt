//! Chains over all tracks of an image of 40 or 42 tracks.
#![tactic(auto)]

mod chains;
mod data;
mod errors;
mod laws;
mod sectors;

pub use chains::{MOST_SECTORS, is_on_chain, long_chain};
pub use data::data_in;
pub use errors::{SECTORS_PAST, misread_past};
pub use laws::disks_end_at_track_35;
pub use sectors::{error_in, has_more_tracks, place_past, sector_at, sectors_in};
