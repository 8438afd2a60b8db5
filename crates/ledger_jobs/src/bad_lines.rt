//! Why a line isn't one of a record: what a person has to mend, and in which column.

use arrayvec::ArrayVec;
use disk_changes::Columns;
use file_rescues::ColumnForm;
use line_text::{CharacterSet, next_line, number_before_comma, read_typed, text_line};

/// The greatest number of a record that a line can have.
const LAST_RECORD: u32 = 182_880;

/// The most bytes that a record has.
const MOST_BYTES: usize = 254;

/// The mark of UTF-8 with which some programs begin a text.
const BYTE_ORDER_MARK: &[u8] = b"\xEF\xBB\xBF";

const MARKED: &str = "the text begins with a byte order mark; save it without one";

const SEMICOLONS: &str = "its columns stand apart by semicolons; save it with commas";

const UNNUMBERED: &str =
    "it doesn't begin with the number of a record, without zeros before it, and a comma";

const UNENDED: &str = "its last column is lost, the mark `\\.` or `\\-`; put it back";

const UNCLOSED: &str = "a quotation mark isn't closed";

const QUOTED: &str = "a quotation mark in a text is typed `\\22`";

const FOREIGN: &str =
    "a character that isn't in ASCII; type its byte in PETSCII, for example `\\5c` for a pound sign";

const ESCAPED: &str =
    "a backslash is typed `\\5c`, and a byte as a backslash and its two digits, `\\0d` for example";

const SEVERAL: &str =
    "the line has several columns; `--fields` or `--at` reads these, or put the text between quotation marks";

const LONG: &str = "its text has more bytes than a record can have";

const UNSHOWN: &str =
    "a character that the C64 hasn't in this set; a control code is typed as a backslash and two digits, `\\0d` for example";

const UNDOUBLED: &str =
    "a quotation mark in a text is typed twice, and the text stands between two others";

const COMMA: &str = "a text with a comma stands between quotation marks";

const BEYOND: &str =
    "the record has fewer bytes than the line, or the file can't have a record of this number";

/// What is wrong with a line.
#[derive(Clone, Copy)]
pub(crate) struct LineFault {
    /// The column that has the fault, from 1 on for the number's. None if it is the whole line.
    pub(crate) column: Option<usize>,
    /// What is wrong with it.
    pub(crate) said: &'static str,
}

/// The fault of a whole line.
fn of_line(said: &'static str) -> Option<LineFault> {
    Some(LineFault { column: None, said })
}

/// The fault of the column after the number.
fn of_text(said: &'static str) -> Option<LineFault> {
    Some(LineFault {
        column: Some(2),
        said,
    })
}

/// Where a reader of a line's text is.
#[derive(Clone, Copy)]
struct Reader {
    // the column, from 1 on
    column: usize,
    // whether it began with a quotation mark
    is_quoted: bool,
    // whether its second one was read
    is_closed: bool,
    // whether a byte of it was read
    is_begun: bool,
    // how many digits of a byte are still to come
    digits: u8,
    // how many bytes were read of the record's
    bytes: usize,
    // whether the mark of the last column was read
    is_marked: bool,
}

impl Reader {
    /// The reader at the beginning of the text of a record.
    fn new() -> Reader {
        Reader {
            column: 2,
            is_quoted: false,
            is_closed: false,
            is_begun: false,
            digits: 0,
            bytes: 0,
            is_marked: false,
        }
    }

    /// The reader at the beginning of the next column.
    fn next(self) -> Reader {
        Reader {
            column: self.column.saturating_add(1),
            bytes: self.bytes,
            is_marked: self.is_marked,
            ..Reader::new()
        }
    }

    /// Reads a digit of a byte, or the second byte of a mark.
    fn read_digit(&mut self, byte: u8) -> Option<&'static str> {
        if self.digits == 2 && (byte == b'.' || byte == b'-') {
            self.is_marked = true;
            self.digits = 0;
            return None;
        }
        if !byte.is_ascii_hexdigit() {
            return Some(ESCAPED);
        }
        self.digits = self.digits.saturating_sub(1);
        None
    }

    /// Reads a byte of a column, and returns what is wrong with it.
    fn read(&mut self, byte: u8) -> Option<&'static str> {
        if self.digits > 0 {
            return self.read_digit(byte);
        }
        let begins = !self.is_begun;
        self.is_begun = true;
        match byte {
            b'"' if begins => self.is_quoted = true,
            b'"' if self.is_quoted && !self.is_closed => self.is_closed = true,
            b'"' => return Some(QUOTED),
            _ if self.is_closed => return Some(QUOTED),
            b'\\' => {
                self.digits = 2;
                self.bytes = self.bytes.saturating_add(1);
            }
            b' '..=b'~' => self.bytes = self.bytes.saturating_add(1),
            _ => return Some(FOREIGN),
        }
        None
    }

    /// Whether a comma ends the column here.
    fn is_between(self) -> bool {
        self.digits == 0 && (!self.is_quoted || self.is_closed)
    }

    /// What is wrong with the column where it ends.
    fn end(self) -> Option<&'static str> {
        if self.digits > 0 {
            return Some(ESCAPED);
        }
        if self.is_quoted && !self.is_closed {
            return Some(UNCLOSED);
        }
        None
    }

    /// This of the column in which the reader is.
    fn fault(self, said: &'static str) -> LineFault {
        LineFault {
            column: Some(self.column),
            said,
        }
    }
}

/// What is wrong with the text of a record, in columns of this form.
fn fault_in_text(text: &[u8], columns: Columns) -> Option<LineFault> {
    let mut reader = Reader::new();
    for &byte in text {
        if byte == b',' && reader.is_between() {
            if matches!(columns, Columns::One) {
                return of_line(SEVERAL);
            }
            reader = reader.next();
        } else if let Some(said) = reader.read(byte) {
            return Some(reader.fault(said));
        }
    }
    if let Some(said) = reader.end() {
        return Some(reader.fault(said));
    }
    if matches!(columns, Columns::Several(ColumnForm::Fields)) && !reader.is_marked {
        return of_line(UNENDED);
    }
    if reader.bytes > MOST_BYTES {
        return of_line(LONG);
    }
    of_line(BEYOND)
}

/// How many bytes of a typed text stand for the byte of a record that begins with this one: a character, a mark that is doubled, or a
/// backslash and two digits.
fn piece_of(first: u8) -> usize {
    match first {
        b'"' | 0xC0..=0xDF => 2,
        b'\\' | 0xE0..=0xEF => 3,
        0xF0..=0xFF => 4,
        _ => 1,
    }
}

/// Whether each byte of a text that is typed in this set stands for a byte of a record, and how many bytes it gives.
fn typed_pieces(set: CharacterSet, text: &[u8]) -> Option<usize> {
    let mut bytes = ArrayVec::new();
    let mut count = 0usize;
    let mut rest = text;
    // Each piece has a byte at least.
    for _ in 0..text.len() {
        let Some(first) = rest.first() else {
            return Some(count);
        };
        let length = piece_of(*first);
        if rest.len() < length {
            return None;
        }
        let (piece, behind) = rest.split_at(length);
        if !read_typed(set, piece, &mut bytes) {
            return None;
        }
        count = count.saturating_add(1);
        rest = behind;
    }
    Some(count)
}

/// What is wrong with a line that is typed in this set. `text` is what stands after its number.
fn fault_in_typed(line: &[u8], text: &[u8], set: CharacterSet) -> Option<LineFault> {
    let Some((_, inner)) = text_line(line) else {
        return of_text(if text.contains(&b'"') {
            UNDOUBLED
        } else {
            COMMA
        });
    };
    match typed_pieces(set, inner) {
        None if inner.contains(&b'"') => of_text(UNDOUBLED),
        None => of_text(UNSHOWN),
        Some(count) if count > MOST_BYTES => of_line(LONG),
        Some(_) => of_line(BEYOND),
    }
}

/// What is wrong with a line that is no record's. Its number is that of a record, or it has none.
fn fault_in_line(line: &[u8], columns: Columns) -> Option<LineFault> {
    if let Some((_, text)) = number_before_comma(line, 1, LAST_RECORD) {
        return match columns {
            Columns::Text(set) => fault_in_typed(line, text, set),
            _ => fault_in_text(text, columns),
        };
    }
    if line.starts_with(BYTE_ORDER_MARK) {
        return of_line(MARKED);
    }
    if line.contains(&b';') && !line.contains(&b',') {
        return of_line(SEMICOLONS);
    }
    of_line(UNNUMBERED)
}

/// What is wrong with the line of this number, from 1 on, of a text with records. None if the text hasn't so many lines.
pub(crate) fn fault_of_line(text: &[u8], number: usize, columns: Columns) -> Option<LineFault> {
    let mut count = 0;
    let mut rest = text;
    while let Some((line, more)) = next_line(rest) {
        count += 1;
        if count == number {
            return fault_in_line(line, columns);
        }
        rest = more;
    }
    None
}
