//! A page and a poster with a drawing of the disk.
pub(crate) mod arcs;
pub(crate) mod kinds;
pub(crate) mod legend;
pub(crate) mod missing_block;
pub(crate) mod others;
pub(crate) mod page;
pub(crate) mod picture_printing;
pub(crate) mod poster;
pub(crate) mod poster_printing;
pub(crate) mod sentences;
pub(crate) mod sharing;
pub(crate) mod white_lines;
