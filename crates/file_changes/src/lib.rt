//! Changes to the files of a 1541 disk: an entry gets another name, a file is deleted or put there;
//! and empty disks.
#![tactic(auto)]

mod deleting;
mod entries;
mod file_type;
mod formatting;
mod freeing;
mod names;
mod new_names;
mod patching;
mod put_sectors;
mod put_writes;
mod putting;
mod renaming;

pub use deleting::delete;
pub use entries::{choose_named, find_entry};
pub use file_type::FileType;
pub use formatting::{format_disk, new_disk};
pub use names::Name;
pub use patching::overwrite;
pub use putting::put_file;
pub use renaming::rename;
