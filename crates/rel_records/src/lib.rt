//! Records of relative files on a 1541 disk: found through side sectors, read and written.
#![tactic(auto)]

mod access;
mod faults;
mod rel_file;
mod sizes;
mod writing;
// A file is found and measured, and a record is read of it.
mod reading;
// A file gets longer: what is kept in memory of it, its last blocks filled, then block by block.
mod growth;
// A new file: its room in the directory, what it takes of the disk, its sectors.
mod creation;

pub use creation::create;
// What a new file of any type takes, and the write of its entry, which makes it.
pub use creation::choose_site;
pub use creation::directory_room::has_padded_name;
pub use creation::new_file::write_entry;
pub use creation::site::Site;
pub use faults::RelFault;
pub use growth::grow_to;
pub use reading::counting::{has_records, records};
pub use reading::finding::find;
pub use reading::parts::record_parts;
pub use reading::read_record;
pub use reading::record_order::{LastBlock, read_next};
pub use rel_file::RelFile;
pub use sizes::blocks_for;
pub use writing::write_record;
