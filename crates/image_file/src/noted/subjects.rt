//! What a failed call was about, in the words of the command line.
use crate::shown_paths::ShownPath;
use std::fmt::{self, Display, Formatter};

/// What a call of the system was about. A text is a word of the command line.
#[derive(Clone, Copy, Debug, PartialEq, Eq)]
pub enum Subject<'a> {
    /// The file at this path.
    File(&'a str),
    /// A file in the folder at this path.
    Inside(&'a str),
    /// A file beside the one at this path, such as its log, or the folder of both.
    Beside(&'a str),
    /// Standard input.
    Input,
    /// Standard output.
    Output,
}

/// Whether a path leads into the folder at another.
fn is_inside(path: &str, folder: &str) -> bool {
    match path.strip_prefix(folder) {
        Some(rest) => rest.starts_with('/'),
        None => false,
    }
}

/// Whether a path is that of a word, under which it is made, or leads into the folder that is made so.
fn is_made_for(path: &str, word: &str) -> bool {
    match path.strip_prefix(word) {
        Some(rest) => rest.starts_with(".new"),
        None => false,
    }
}

impl<'a> Subject<'a> {
    /// What a path is about, among the words of a job: the file of a word, or one inside the folder of a word, or what is
    /// made for a word, one whose path begins with a word, otherwise one beside the first word. None if there are no words.
    pub(crate) fn of(words: &[&'a str], path: &str) -> Option<Subject<'a>> {
        for word in words {
            if *word == path {
                return Some(Subject::File(word));
            }
        }
        for word in words {
            if is_inside(path, word) {
                return Some(Subject::Inside(word));
            }
        }
        for word in words {
            if is_made_for(path, word) {
                return Some(Subject::File(word));
            }
        }
        for word in words {
            if path.starts_with(word) {
                return Some(Subject::Beside(word));
            }
        }
        words.first().map(|word| Subject::Beside(word))
    }
}

impl Display for Subject<'_> {
    fn fmt<W: fmt::Write>(&self, f: &mut Formatter<W>) -> fmt::Result {
        match self {
            Subject::File(path) => ShownPath(path).fmt(f),
            Subject::Inside(folder) => write!(f, "in {}", ShownPath(folder)),
            Subject::Beside(path) => write!(f, "beside {}", ShownPath(path)),
            Subject::Input => f.write_str("standard input"),
            Subject::Output => f.write_str("standard output"),
        }
    }
}
