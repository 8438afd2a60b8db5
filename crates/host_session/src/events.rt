//! One event of a run: its source, a cut in it, and the receiver of its reply.
pub(crate) mod cuts;
pub(crate) mod lines;
pub(crate) mod printing;
mod reply_list;
pub(crate) mod sinks;
pub(crate) mod sources;
