//! Many disks on one page.
pub(crate) mod shades;
pub(crate) mod sheet_printing;
pub(crate) mod tiles;
