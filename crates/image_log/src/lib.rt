//! A write-ahead log of a disk's images: blocks that count their zeros, written over zeros, so that one sync makes a
//! commit last. And its life beside the image.
#![tactic(auto)]

mod appending;
mod blocks;
mod committing;
mod filling;
mod image_log;
mod laying_out;
// The life of a log beside its image: it is found, checked, landed, made anew and removed.
mod life;
mod log;
mod log_blocks;
mod log_file;
mod log_reader;
mod log_room;
mod mem_log;
mod replaying;
mod salvaging;
mod touched_disk;

pub use blocks::BLOCK;
pub use filling::fill;
pub use image_log::ImageLog;
pub use life::beginning::begin;
pub use life::host_folder::HostFolder;
pub use life::host_logs::HostLogs;
pub use life::image_folder::ImageFolder;
pub use life::image_view::ImageView;
pub use life::judging::{Misfit, image_of_log};
pub use life::landing::{LogFault, land};
pub use life::live_log::LiveLog;
pub use life::log_folder::LogFolder;
pub use life::log_names::{LogNames, find_log, forget_log, forget_making, sync_names};
pub use life::mem_folder::{FolderCall, MemFolder};
pub use life::memory::{image_room, land_in, view_in};
pub use life::open_log::OpenLog;
pub use life::read_log::ReadLog;
pub use life::replacing::{ReplaceFault, replace, sectors_of};
pub use life::superseding::supersede;
pub use life::system_log::SystemLog;
pub use life::tagged_files::untag_file;
pub use life::tags::is_log_away;
pub use life::viewing::ViewsImage;
pub use log::{BLOCKS, Log, MOST, none_touched};
pub use log_file::LogFile;
pub use log_reader::LogReader;
pub use log_room::LogRoom;
pub use mem_log::MemLog;
pub use replaying::read_images;
pub use salvaging::{Salvaged, salvage};
pub use touched_disk::TouchedDisk;
