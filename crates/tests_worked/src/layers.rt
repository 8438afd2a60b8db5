//! Rows of the disk's layers: devices, what lies on a disk and where, checks and repairs; and of the drive.

mod chain_rows;
mod device_rows;
pub(crate) mod disks;
mod drive_rows;
mod drives;
mod far_rows;
mod long_rows;
mod map_rows;
mod mirror_rows;
mod table_rows;
