//! A disk as plain text: its free blocks, a sector, what an image has beyond a disk.
pub(crate) mod byte_lines;
pub(crate) mod free_printing;
pub(crate) mod missing;
pub(crate) mod past_errors;
pub(crate) mod past_tracks;
pub(crate) mod reading_errors;
pub(crate) mod sector_printing;
pub(crate) mod trimming;
