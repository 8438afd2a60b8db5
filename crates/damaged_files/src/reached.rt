//! What can still be read of a damaged disk, or of an image of another size.
pub(crate) mod directory;
pub(crate) mod names;
pub(crate) mod nearness;
pub(crate) mod owning;
pub(crate) mod reaching;
pub(crate) mod sharing;
pub(crate) mod sizes;
pub(crate) mod types;
