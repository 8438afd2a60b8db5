//! A shop served over a log: the lines at hand are handled in memory, made durable by one sync, and then answered.
pub(crate) mod batching;
pub(crate) mod handling;
pub(crate) mod keeping;
pub(crate) mod reporting;
pub(crate) mod room;
