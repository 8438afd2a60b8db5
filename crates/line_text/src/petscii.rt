//! PETSCII as text of Unicode, also on one line between quotation marks, and names of files for the entries of a disk.
pub(crate) mod characters;
pub(crate) mod file_names;
pub(crate) mod name_laws;
pub(crate) mod quoting;
pub(crate) mod reading;
pub(crate) mod typing;
