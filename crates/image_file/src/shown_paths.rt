//! Paths of files, as a person reads them.
use std::fmt::{self, Display, Formatter, Write};

/// A path without characters that a terminal obeys. Each control character, and each character that turns the direction
/// of the text around it, is shown as its number in hexadecimal digits, such as `\u{1b}`.
#[derive(Clone, Copy)]
pub struct ShownPath<'a>(pub &'a str);

/// Whether a terminal may obey it in place of showing it.
fn is_obeyed(letter: char) -> bool {
    letter.is_control()
        || ('\u{200e}'..='\u{200f}').contains(&letter)
        || ('\u{2028}'..='\u{202e}').contains(&letter)
        || ('\u{2066}'..='\u{2069}').contains(&letter)
}

impl Display for ShownPath<'_> {
    fn fmt<W: fmt::Write>(&self, f: &mut Formatter<W>) -> fmt::Result {
        for letter in self.0.chars() {
            if is_obeyed(letter) {
                write!(f, "{}", letter.escape_unicode())?;
            } else {
                f.write_char(letter)?;
            }
        }
        Ok(())
    }
}
