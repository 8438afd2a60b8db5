//! The sectors of a 1541 disk of 35 tracks: places, images, and the devices through which they are read and written.
#![tactic(auto)]

mod count;
mod device_as_file;
mod faults;
mod fuse;
mod geometry;
mod kept_mirror;
mod mem_disk;
mod meter;
mod mirror;
mod one_fault;
mod place;
mod sector_file;
mod sectors;

pub use count::Count;
pub use device_as_file::DeviceAsFile;
pub use faults::{DeviceFault, ImageFault};
pub use fuse::Fuse;
pub use geometry::{IMAGE_BYTES, SECTORS, TRACK_SECTORS, TRACKS, sectors_on};
pub use kept_mirror::KeptMirror;
pub use mem_disk::MemDisk;
pub use meter::Meter;
pub use mirror::Mirror;
pub use one_fault::OneFault;
pub use place::Place;
pub use sector_file::SectorFile;
pub use sectors::Sectors;
