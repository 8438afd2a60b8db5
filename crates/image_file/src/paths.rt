//! The files of a host, by their paths: what may be done with each, which are opened, and whether they are still there.
pub(crate) mod host;
pub(crate) mod mounts;
pub(crate) mod names;
pub(crate) mod opening;
pub(crate) mod system;
