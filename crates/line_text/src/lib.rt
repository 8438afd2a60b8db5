//! Texts and their lines: numbers in decimal, bytes as text that is read back, columns of a spreadsheet, PETSCII as
//! text for people, listings of BASIC, and scripts.
#![tactic(auto)]

// Programs in BASIC 2.0, the C64's, as text.
mod basic;
// Bytes as text that an editor or a spreadsheet takes, and records as lines of such text, read back as they were.
mod bytes;
// Records as columns of a spreadsheet, a column for each field or at fixed positions, read back as they were.
mod columns;
// Numbers in decimal, digit by digit and in fields.
mod digits;
// Bytes handed to a writer.
mod handing;
// Lines that each begin with a name.
mod naming;
// PETSCII as text of Unicode, also on one line between quotation marks, and names of files for the entries of a disk.
mod petscii;
// Scripts: the bytes of a file, cut into lines, and the event in each line.
mod scripts;

pub use basic::listing::{Listing, is_ended};
pub use bytes::laws::{lines_give_records, texts_differ};
pub use bytes::line_reading::read_line;
pub use bytes::line_writing::{LINE_ROOM, append_line, write_line};
pub use bytes::reading::{MOST_BYTES, read_text};
pub use bytes::text::Text;
pub use bytes::trimming::trim;
pub use bytes::writing::write_text;
pub use columns::laws::{
    columns_come_back, columns_have_fields, long_columns_are_refused, more_columns_are_refused,
    positions_come_back,
};
pub use columns::pieces::write_pieces;
pub use columns::placing::push_pieces;
pub use columns::positions::{MOST_PIECES, Positions};
pub use columns::reading::{Column, push_columns};
pub use columns::writing::write_fields;
pub use digits::{number, number_before_comma};
pub use handing::{NotTaken, hand_whole};
pub use naming::print_named;
pub use petscii::characters::{CharacterSet, character};
pub use petscii::file_names::{Ending, FileName, NAME_ROOM, file_name};
pub use petscii::name_laws::{names_are_safe, names_differ};
pub use petscii::quoting::{OneLine, Quoted};
pub use petscii::reading::Readable;
pub use petscii::typing::{read_typed, reads_as, text_line};
pub use scripts::event_lines::{event_at, first_bad_line};
pub use scripts::events::{Cut, Event};
pub use scripts::laws::line_grammar;
pub use scripts::script::{first_reset_line, next_line};
