//! A host of files in memory that says what stood there when it was made, and lets them be written.

pub(crate) mod host;
pub(crate) mod jobs;
pub(crate) mod known_folder;
pub(crate) mod known_images;
pub(crate) mod open_file;
pub(crate) mod store;
