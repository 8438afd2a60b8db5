//! Lines of the index.
ghost use Rattle.std.specs.Prelude.{◌≡◌, Some};
ghost use Rattle.file_rescues.specs.rescue.Errors.{errors_text};
ghost use Rattle.file_rescues.specs.rescue.Index.{closed_text, ended_text, entry_text, file_text, found_text, length_text};
ghost use Rattle.file_rescues.specs.rescue.Index.{locked_text, naming_text, past_text, row_text, shared_text};
ghost use Rattle.file_rescues.specs.rescue.Rescues as rescues;
ghost use Rattle.file_rescues.specs.rescue.Rescues.{fault_of};

use crate::rescue::art::is_art;
use crate::rescue::errors::Errors;
use crate::rescue::hashes::Hash;
use crate::rescue::naming::first_name;
use d64_image::Place;
use damaged_files::{entry_name, type_name};
use disk_layout::{EntryView, Fault, Slot};
use line_text::{CharacterSet, Quoted, Text};
use long_chains::place_past;
use std::fmt::{self, Display, Formatter};

/// What the index says of a file.
#[derive(Clone, Copy, Debug)]
pub struct Row {
    /// The number of its entry, from 1.
    pub number: u8,
    /// Its entry.
    pub slot: Slot,
    /// Whether its file is a CVT.
    pub is_cvt: bool,
    /// How many of its blocks can be reached: 0 of directory art, of which nothing is said in the fields below either.
    pub blocks: usize,
    /// How many bytes these have.
    pub bytes: usize,
    /// What ended its chain, if it wasn't its end.
    pub fault: Option<Fault>,
    /// The first of its blocks on tracks 1 to 35 that another file has too, or the map or the directory.
    pub shared: Option<Place>,
    /// The SHA-256 of the file's bytes: none of directory art, which has no file.
    pub hash: Option<[u8; 32]>,
}

/// The fault of an entry that isn't closed: `Unclosed` at its directory sector. A deleted one has none.
fn open_fault(slot: &Slot) -> Option<Fault>
    ensures { result ≡ rescues.open_fault slot.now }
{
    match slot.bytes[2] {
        0 => None,
        1..=127 => Some(Fault::Unclosed(slot.sector)),
        _ => None,
    }
}

impl Row {
    /// Why the file isn't whole: its chain's fault; or `OwnedTwice` at the first block that others have too; or `Unclosed`
    /// at its directory sector, if it isn't deleted.
    pub fn fault(&self) -> Option<Fault>
        ensures { result ≡ fault_of self.now }
    {
        let shared = match self.shared {
            Some(place) => Some(Fault::OwnedTwice(place)),
            None => None,
        };
        self.fault.or(shared.or(open_fault(&self.slot)))
    }
}

/// Whether a file with this type byte is closed.
fn closed(type_byte: u8) -> &'static str
    ensures { result.now ≡ closed_text type_byte }
{
    if type_byte < 128 { "no" } else { "yes" }
}

/// Whether it is locked.
fn locked(type_byte: u8) -> &'static str
    ensures { result.now ≡ locked_text type_byte }
{
    if (type_byte >> 6) & 1 == 1 {
        "yes"
    } else {
        "no"
    }
}

/// The length of a file's records, if it is relative.
#[derive(Clone, Copy)]
struct Length {
    type_byte: u8,
    length: u8,
}

impl Display for Length {
    ghost output = { λ r. Some (length_text r.type_byte r.length) };

    fn fmt<W: fmt::Write>(&self, f: &mut Formatter<W>) -> fmt::Result {
        if self.type_byte % 16 != 4 {
            return Ok(());
        }
        write!(f, "{}", self.length)
    }
}

/// What ended a chain, if something did.
#[derive(Clone, Copy)]
struct Ended(Option<Fault>);

impl Display for Ended {
    ghost output = { λ ended. Some (ended_text ended.0) };

    fn fmt<W: fmt::Write>(&self, f: &mut Formatter<W>) -> fmt::Result {
        match self.0 {
            None => Ok(()),
            Some(fault) => write!(f, "{fault}"),
        }
    }
}

/// The first shared sector past track 35, if there is one.
#[derive(Clone, Copy)]
struct SharedPast(Option<u16>);

impl Display for SharedPast {
    ghost output = { λ shared. Some (past_text shared.0) };

    fn fmt<W: fmt::Write>(&self, f: &mut Formatter<W>) -> fmt::Result {
        let Some(number) = self.0 else {
            return Ok(());
        };
        let (track, sector) = place_past(number);
        write!(f, "{track}/{sector}")
    }
}

/// The first shared block, on tracks 1 to 35 if there is one, and otherwise past these.
#[derive(Clone, Copy)]
struct Shared {
    block: Option<Place>,
    past: Option<u16>,
}

impl Display for Shared {
    ghost output = { λ shared. Some (shared_text shared.block shared.past) };

    fn fmt<W: fmt::Write>(&self, f: &mut Formatter<W>) -> fmt::Result {
        match self.block {
            None => write!(f, "{}", SharedPast(self.past)),
            Some(place) => write!(f, "{}/{}", place.track(), place.sector()),
        }
    }
}

/// The name of a row's file; none of directory art.
#[derive(Clone, Copy)]
struct NameOfFile(Row);

impl Display for NameOfFile {
    ghost output = { λ named. Some (file_text named.0) };

    fn fmt<W: fmt::Write>(&self, f: &mut Formatter<W>) -> fmt::Result {
        let row = &self.0;
        if is_art(&row.slot) {
            return Ok(());
        }
        let file = first_name(row.number, row.is_cvt, &row.slot);
        write!(f, "{}", Text(file.as_slice()))
    }
}

/// Whose a row is.
#[derive(Clone, Copy)]
struct Naming(Row);

impl Display for Naming {
    ghost output = { λ naming. Some (naming_text naming.0) };

    fn fmt<W: fmt::Write>(&self, f: &mut Formatter<W>) -> fmt::Result {
        let row = &self.0;
        let name = entry_name(&row.slot);
        write!(
            f,
            "{},\"{}\",\"{}\",{},",
            row.number,
            NameOfFile(*row),
            Text(name),
            Quoted {
                set: CharacterSet::Graphics,
                bytes: name
            }
        )
    }
}

/// What a row's entry says.
#[derive(Clone, Copy)]
struct Entry(Row);

impl Display for Entry {
    ghost output = { λ entry. Some (entry_text entry.0) };

    fn fmt<W: fmt::Write>(&self, f: &mut Formatter<W>) -> fmt::Result {
        let entry = EntryView::new(&self.0.slot.bytes);
        let type_byte = entry.type_byte();
        write!(
            f,
            "{},{},{},{},",
            type_name(type_byte % 16),
            closed(type_byte),
            locked(type_byte),
            entry.block_count()
        )
    }
}

/// What was found of a row's file, with its first shared sector past track 35.
#[derive(Clone, Copy)]
struct Found {
    row: Row,
    past: Option<u16>,
}

impl Display for Found {
    ghost output = { λ found. Some (found_text found.row found.past) };

    fn fmt<W: fmt::Write>(&self, f: &mut Formatter<W>) -> fmt::Result {
        let row = &self.row;
        let entry = EntryView::new(&row.slot.bytes);
        let (type_byte, length) = (entry.type_byte(), entry.record_length());
        write!(
            f,
            "{},{},{},{},{}",
            row.blocks,
            Length { type_byte, length },
            row.bytes,
            Ended(row.fault),
            Shared {
                block: row.shared,
                past: self.past
            }
        )
    }
}

/// A row as a line, with those blocks of its file that weren't read.
#[derive(Clone, Copy)]
pub(crate) struct Line<'a> {
    /// The row.
    pub row: Row,
    /// The first sector past track 35 of its file that another file has too.
    pub past: Option<u16>,
    /// The blocks.
    pub errors: Errors<'a>,
}

impl Display for Line<'_> {
    ghost output = { λ line. Some (row_text line.row line.past (errors_text line.errors.image.now line.errors.places.now line.errors.past.now)) };

    fn fmt<W: fmt::Write>(&self, f: &mut Formatter<W>) -> fmt::Result {
        let (row, past) = (self.row, self.past);
        writeln!(
            f,
            "{}{}{},{},{}",
            Naming(row),
            Entry(row),
            Found { row, past },
            self.errors,
            Hash(row.hash)
        )
    }
}
