//! Scripts: the bytes of a file, cut into lines, and the event in each line.
pub(crate) mod event_lines;
pub(crate) mod events;
pub(crate) mod laws;
pub(crate) mod script;
