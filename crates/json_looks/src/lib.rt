//! What looks at an image print for other programs: an object of JSON for each image, in a line of its own.
#![tactic(auto)]

mod checks;
mod entries;
mod free_counts;
mod geos_types;
mod listings;
mod missing;
mod printing;
mod sector_maps;
mod shops;
mod verdicts;

pub use checks::{check_object, check_row, print_unchecked};
pub use free_counts::free_object;
pub use listings::list_object;
pub use printing::print_refused;
pub use sector_maps::map_object;
pub use shops::shop_object;
