//! What is printed of a disk: its names and entries.
ghost use Rattle.std.specs.Prelude.{◌≡◌, Some, map};
ghost use Rattle.disk_reports.specs.Texts.{disk_text, entry_text, free_text, name_text, shown};

use damaged_files::TypeText;
use disk_layout::{BamView, EntryView, Slot};
use line_text::{CharacterSet, OneLine};
use std::fmt::{self, Display, Formatter};

/// Bytes of the disk as they are printed: a question mark stands for each outside $20 to $7E.
#[derive(Clone, Copy)]
struct Shown<'a>(&'a [u8]);

impl Display for Shown<'_> {
    ghost output = { λ text. Some (map shown text.0.now) };

    fn fmt<W: fmt::Write>(&self, f: &mut Formatter<W>) -> fmt::Result {
        for byte in self.0 {
            let shown = match *byte {
                0x20..=0x7E => char::from(*byte),
                _ => '?',
            };
            f.write_char(shown)?;
        }
        Ok(())
    }
}

/// How names of the disk are printed.
#[derive(Clone, Copy, Debug, PartialEq, Eq)]
pub enum NameForm {
    /// In ASCII: a question mark stands for each byte outside $20 to $7E.
    Ascii,
    /// As people read them, in the characters of this set.
    Text(CharacterSet),
}

/// Bytes of a name in a form.
#[derive(Clone, Copy)]
struct NameText<'a> {
    form: NameForm,
    bytes: &'a [u8],
}

impl Display for NameText<'_> {
    ghost output = { λ name. Some (name_text name.form name.bytes.now) };

    fn fmt<W: fmt::Write>(&self, f: &mut Formatter<W>) -> fmt::Result {
        let bytes = self.bytes;
        match self.form {
            NameForm::Ascii => write!(f, "{}", Shown(bytes)),
            NameForm::Text(set) => write!(f, "{}", OneLine { set, bytes }),
        }
    }
}

/// An entry as it is printed: its block count as stored, its name between quotation marks in this form, its type.
#[derive(Clone, Copy)]
pub(crate) struct EntryText<'a> {
    pub form: NameForm,
    pub slot: &'a Slot,
}

impl Display for EntryText<'_> {
    ghost output = { λ text. Some (entry_text text.form text.slot.now) };

    fn fmt<W: fmt::Write>(&self, f: &mut Formatter<W>) -> fmt::Result {
        let entry = EntryView::new(&self.slot.bytes);
        let form = self.form;
        let bytes = entry.name();
        let name = NameText { form, bytes };
        let kind = TypeText {
            byte: entry.type_byte(),
            locked: "<",
        };
        write!(f, "{} \"{name}\" {kind}", entry.block_count())
    }
}

/// The disk as it is printed: 0, its name between quotation marks, its id and its version, in this form.
#[derive(Clone, Copy)]
pub(crate) struct DiskText<'a> {
    pub form: NameForm,
    pub map: BamView<'a>,
}

impl Display for DiskText<'_> {
    ghost output = { λ text. Some (disk_text text.form text.map.bytes.now) };

    fn fmt<W: fmt::Write>(&self, f: &mut Formatter<W>) -> fmt::Result {
        let (form, map) = (self.form, &self.map);
        let name = NameText {
            form,
            bytes: map.name(),
        };
        let id = NameText {
            form,
            bytes: map.id(),
        };
        let version = NameText {
            form,
            bytes: map.version(),
        };
        write!(f, "0 \"{name}\" {id} {version}")
    }
}

/// A number of free blocks as it is printed.
#[derive(Clone, Copy)]
pub(crate) struct FreeText(pub u16);

impl Display for FreeText {
    ghost output = { λ text. Some (free_text text.0) };

    fn fmt<W: fmt::Write>(&self, f: &mut Formatter<W>) -> fmt::Result {
        write!(f, "{} BLOCKS FREE", self.0)
    }
}
