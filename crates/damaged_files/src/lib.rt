//! What is left of a disk's files where sectors are lost: files that are cut short, side sectors that are built anew, and
//! what can be read of a damaged disk, or of an image of another size.
#![tactic(auto)]

// Files of a disk that a lost sector cut short.
mod cut;
// What can still be read of a damaged disk, or of an image of another size.
mod reached;
// Side sectors of relative files, built anew from the files' chains.
mod sides;

pub use cut::cuts::{find_cut, find_shortfall, sound_cut};
pub use cut::geos::has_geos_entry;
pub use cut::images::find_image_shortfall;
pub use cut::laws::whole_is_uncut;
pub use cut::named::cut_named;
pub use cut::settling::settle;
pub use cut::shortfalls::Shortfall;
pub use reached::directory::{DirectorySectors, Entries, read_so_far};
pub use reached::names::{disk_name, entry_name};
pub use reached::nearness::near_entries;
pub use reached::owning::owners_of;
pub use reached::reaching::{Reach, reach_blocks, reach_file};
pub use reached::sharing::Owners;
pub use reached::sizes::{LARGEST_IMAGE, disk_in, error_at, first_tracks};
pub use reached::types::{TypeText, type_name};
pub use sides::naming::name_sides;
pub use sides::planning::Loss;
pub use sides::rebuilding::rebuild_sides;
