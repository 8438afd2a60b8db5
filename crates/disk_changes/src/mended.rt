//! A disk that is repaired, and what is printed of that.
pub(crate) mod kinds;
pub(crate) mod mending;
pub(crate) mod rebuilding;
