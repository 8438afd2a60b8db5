//! Lines of records, stored in a file.
pub(crate) mod column_lines;
pub(crate) mod judging;
pub(crate) mod last_lines;
pub(crate) mod record_storing;
pub(crate) mod storing;
pub(crate) mod typed_lines;
