//! The loop of all runs, and its callers.
pub(crate) mod event_loop;
pub(crate) mod plays;
pub(crate) mod scripts;
