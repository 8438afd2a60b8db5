//! Records as columns of a spreadsheet, a column for each field or at fixed positions, read back as they were.
pub(crate) mod laws;
pub(crate) mod pieces;
pub(crate) mod placing;
pub(crate) mod positions;
pub(crate) mod reading;
pub(crate) mod writing;
