//! How what is taken out of an image is printed.
use line_text::{CharacterSet, Positions};

/// What the columns of a record's line are.
#[derive(Clone, Copy, Debug, PartialEq, Eq)]
pub enum ColumnForm {
    /// Its fields, which a carriage return ends.
    Fields,
    /// Its pieces, which begin at these positions.
    At(Positions),
}

/// How the records of a relative file are printed.
#[derive(Clone, Copy, Debug, PartialEq, Eq)]
pub enum RecordForm {
    /// As lines that `store_image` reads back.
    Lines,
    /// As lines that people read, in the characters of this set. They aren't read back.
    Text(CharacterSet),
    /// As lines with several columns, which `plain_lines` makes lines that `store_image` reads.
    Columns(ColumnForm),
}

/// How the bytes of a file are printed.
#[derive(Clone, Copy, Debug, PartialEq, Eq)]
pub enum ByteForm {
    /// As they are.
    Plain,
    /// As text that people read, in the characters of this set.
    Text(CharacterSet),
}

/// How a file is printed.
#[derive(Clone, Copy, Debug, PartialEq, Eq)]
pub enum FileForm {
    /// As its bytes, in this form.
    Bytes(ByteForm),
    /// As the listing of a program in BASIC 2.0 (`line_text`).
    Listing,
}
