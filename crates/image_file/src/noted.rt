//! Files of a runtime that keep why a call of theirs failed, for the line that a person reads.
pub(crate) mod failures;
pub(crate) mod limits;
pub(crate) mod noted_file;
pub(crate) mod noted_reader;
pub(crate) mod noted_runtime;
pub(crate) mod subjects;
