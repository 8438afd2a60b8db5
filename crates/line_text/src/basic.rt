//! Programs in BASIC 2.0, the C64's, as text.
pub(crate) mod characters;
pub(crate) mod listing;
pub(crate) mod places;
