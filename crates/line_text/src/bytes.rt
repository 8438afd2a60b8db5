//! Bytes as text that an editor or a spreadsheet takes, and records as lines of such text, read back as they were.
pub(crate) mod laws;
pub(crate) mod line_reading;
pub(crate) mod line_writing;
pub(crate) mod putting;
pub(crate) mod reading;
pub(crate) mod text;
pub(crate) mod trimming;
pub(crate) mod writing;
