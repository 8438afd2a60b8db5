//! What the program's table says of a subcommand.
use crate::values::Value;

/// A subcommand, and what help says of it: in a line, and below its words.
pub(crate) struct Subcommand {
    pub(crate) name: &'static str,
    /// The line that help has of it.
    pub(crate) about: &'static str,
    /// The text below its values in its own help.
    pub(crate) more: &'static str,
    /// Its values and flags, in the order of the line of use.
    pub(crate) values: &'static [Value],
}
