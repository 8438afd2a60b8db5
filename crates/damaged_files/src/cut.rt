//! Files of a disk that a lost sector cut short.
pub(crate) mod cuts;
pub(crate) mod geos;
pub(crate) mod images;
pub(crate) mod laws;
pub(crate) mod listed;
pub(crate) mod named;
pub(crate) mod names;
pub(crate) mod settling;
pub(crate) mod shortfalls;
pub(crate) mod strays;
pub(crate) mod tails;
