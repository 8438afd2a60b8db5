//! The two files of a shop on a disk: found, read and checked; their records are written through a drive.
pub(crate) mod completion;
mod files;
pub(crate) mod growth;
pub(crate) mod intents;
pub(crate) mod judgment;
mod record_content;
pub(crate) mod records;
pub(crate) mod shop_drive;
