//! What lies on a 1541 disk and where: the map, the directory, chains and side sectors; and the blank image.
#![tactic(auto)]

mod access;
mod bam;
mod blank;
mod blank_laws;
mod blank_map;
mod chain;
mod directory;
mod entries;
mod faults;
mod filling;
mod shop_files;
mod side;
mod slot;
mod views;
mod visited;

pub use access::{read_sector, write_other, write_sector};
pub use bam::Bam;
pub use blank::blank_image;
pub use blank_laws::{blank_has_top, blank_is_clean, blank_is_whole};
pub use blank_map::blank_header;
pub use chain::walk_chain;
pub use directory::{
    DIRECTORY_SECTORS, DIRECTORY_TRACK, add_used, directory_start, map_place,
    next_directory_sector, read_directory,
};
pub use entries::{padded_name, relative_entry, set_count};
pub use faults::Fault;
pub use filling::{DATA, fill};
pub use shop_files::{REQUESTS_LENGTH, REQUESTS_NAME, STOCK_LENGTH, STOCK_NAME};
pub use side::{LIST_AT, MOST_BLOCKS, MOST_SIDES, POINTERS, POINTERS_AT, SideView, side_bytes};
pub use slot::Slot;
pub use views::{BamView, DirView, EntryView};
pub use visited::Visited;
