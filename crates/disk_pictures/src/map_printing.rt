//! The map of a disk, as it is printed for a terminal.
ghost use Rattle.std.specs.Prelude.{◌≡◌, ◌≢◌, IfErr, IfOk, OnOk, Some, map};
ghost use Rattle.std.specs.Io.KnownBytes.{Appends};
ghost use Rattle.d64_image.specs.Memory.{sectors_in};
ghost use Rattle.disk_layout.specs.Layout.{IsLayout, Layout};
ghost use Rattle.disk_pictures.specs.Drawings.{file_in};
ghost use Rattle.disk_pictures.specs.Held.{drawn_in};
ghost use Rattle.disk_pictures.specs.Maps.{entry_line, geos_text, is_wide as wide_of, map_text, records_text};
ghost use Rattle.disk_pictures.specs.Outcomes.{IsDrawnAs, IsMapPrinted, IsPictureFault};
ghost use Rattle.disk_pictures.specs.Texts.{numbered};
ghost use Rattle.command_faults.specs.declared.faults.CommandFault.TheVariants as faults;

use crate::drawing::Drawing;
use crate::drawn_file::DrawnFile;
use crate::map_tracks::print_either_tracks;
use crate::signs::EntryMark;
use crate::verdicts::{Verdict, judged};
use command_faults::{CommandFault, flush, print_text};
use damaged_files::{TypeText, entry_name};
use disk_layout::{EntryView, Fault, Slot};
use geos_files::{geos_entry, geos_type_name, structure_name};
use line_text::Text;
use std::alloc::Global;
use std::fmt::{self, Display, Formatter};
use std::io::Write;

/// How many entries have a letter each.
const LETTERS: usize = 26;

/// Whether there are more entries than letters.
pub(crate) fn is_wide(drawing: &Drawing) -> bool
    ensures { result ≡ wide_of (drawn_in drawing.now) }
{
    drawing.files.as_slice().len() > LETTERS
}

/// Record length and number of records, if they are printed.
#[derive(Clone, Copy)]
struct RecordsText<'a>(&'a DrawnFile);

impl Display for RecordsText<'_> {
    ghost output = { λ text. Some (records_text (file_in text.0.now)) };

    fn fmt<W: fmt::Write>(&self, f: &mut Formatter<W>) -> fmt::Result {
        match self.0.records() {
            Some((length, count)) => write!(f, " LENGTH {length} RECORDS {count}"),
            None => Ok(()),
        }
    }
}

/// What GEOS calls the structure and the type of its file, if the entry is one of GEOS.
#[derive(Clone, Copy)]
struct GeosText<'a>(&'a Slot);

impl Display for GeosText<'_> {
    ghost output = { λ text. Some (geos_text text.0.now) };

    fn fmt<W: fmt::Write>(&self, f: &mut Formatter<W>) -> fmt::Result {
        let Some(entry) = geos_entry(self.0) else {
            return Ok(());
        };
        let structure = structure_name(entry.has_records);
        write!(f, " GEOS {structure} {}", geos_type_name(self.0.bytes[24]))
    }
}

/// The line of an entry.
#[derive(Clone, Copy)]
pub(crate) struct EntryLine<'a> {
    /// Whether there are more than 26 entries.
    pub(crate) wide: bool,
    /// The entry's number, from 0.
    pub(crate) number: usize,
    /// What is drawn of it.
    pub(crate) file: &'a DrawnFile,
}

impl Display for EntryLine<'_> {
    ghost output = { λ text. Some (entry_line text.wide text.number (file_in text.file.now)) };

    fn fmt<W: fmt::Write>(&self, f: &mut Formatter<W>) -> fmt::Result {
        let entry = EntryView::new(&self.file.slot.bytes);
        let kind = TypeText {
            byte: entry.type_byte(),
            locked: "<",
        };
        writeln!(
            f,
            "{} {} \"{}\" {kind}{}{}",
            EntryMark {
                wide: self.wide,
                number: self.number
            },
            entry.block_count(),
            Text(entry_name(&self.file.slot)),
            RecordsText(self.file),
            GeosText(&self.file.slot)
        )
    }
}

/// Prints the lines of the entries.
fn print_entries<W: Write>(out: &mut W, wide: bool, files: &[DrawnFile]) -> Result<(), CommandFault>
    ensures ok { OnOk result (Appends (W.contents out.old) (W.contents out.new)
        (numbered (entry_line wide) 0 (map file_in files.now))) }
    ensures err { IfErr result (λ fault. fault ≡ faults.File) }
{
    for (number, file) in files.iter().enumerate() {
        print_text(out, EntryLine { wide, number, file })?;
    }
    Ok(())
}

/// Prints the map.
fn print_map<W: Write>(out: &mut W, verdict: Verdict, drawing: &Drawing) -> Result<(), CommandFault>
    ensures ok { OnOk result (Appends (W.contents out.old) (W.contents out.new)
        (map_text verdict drawing.now.map (drawn_in drawing.now))) }
    ensures err { IfErr result (λ fault. fault ≡ faults.File) }
{
    let wide = is_wide(drawing);
    print_either_tracks(out, wide, verdict.found, drawing)?;
    print_entries(out, wide, drawing.files.as_slice())?;
    print_text(out, verdict)?;
    print_text(out, "\n")?;
    flush(out)
}

/// Prints which sector is whose, for a terminal: a line for each track, with a mark for each of its sectors, and a line
/// for each entry. At last stands what a check of the disk reports, which is also the result, and on a line of its own where the
/// first file is cut short, if one is. A damaged disk is drawn as far as its links go. The map of a sound disk is that of
/// its layout.
///
/// `*` is the map, and `=` the directory. A letter is a block of the entry whose line begins with it, and the capital one
/// of its side sectors. `.` is free, `?` is taken in the map and of no entry, and `!` is the sector of the fault. With
/// more than 26 entries a digit stands after each letter, the other marks are doubled, and a blank parts them: `a0` is
/// the first entry, `a1` the 27th.
///
/// `ImageSize`; `NoMemory`; `Layout` if the directory's sectors aren't a chain on track 18: nothing was printed then.
/// `File` if the output failed, which may then have a part.
pub fn map_image<W: Write>(
    alloc: Global,
    image: &[u8],
    out: &mut W,
) -> Result<Option<Fault>, CommandFault>
    ensures ok { IfOk result (IsMapPrinted W.contents image.now out.old out.new) }
    ensures sound { IfOk result (λ found. (l : Layout) → IsLayout (sectors_in image.now) l
        → IsDrawnAs W.contents map_text image.now l out.old out.new found) }
    ensures err { IfErr result (IsPictureFault image.now) }
    ensures untouched { IfErr result (λ fault. (fault ≢ faults.File) → out.new ≡ out.old) }
{
    let (drawing, verdict) = judged(alloc, image)?;
    print_map(out, verdict, &drawing)?;
    Ok(verdict.found)
}
