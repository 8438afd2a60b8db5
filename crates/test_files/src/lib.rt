//! A file in memory. It is known what it holds, what of that is on its disk, and all that was there before. Also a run
//! of the program over it, whose contract says what it holds if the program dies at any moment. And a host of files that
//! says what they held.
#![tactic(auto)]

mod disk;
mod disk_file;
mod runs;
mod snapshots;
mod whole_file;

pub use disk::{Disk, IMAGE_BYTES};
pub use disk_file::{DiskFile, Lock};
pub use runs::play_in_file;
pub use snapshots::host::Snapshot;
pub use snapshots::jobs::{
    do_over, made_images_are_told, premises_are_met, services_land, trim_over,
};
pub use snapshots::open_file::SnapshotFile;
pub use snapshots::store::Store;
pub use whole_file::WholeFile;
