//! The records of a relative file, of an image that may have more tracks than 35.
ghost use Rattle.std.specs.Prelude.{◌≡◌, ◌≤◌, IfErr, IfOk, IsTrue, None, length};
ghost use Rattle.std.specs.Io.KnownBytes.{Appends};
ghost use Rattle.std.specs.List.{AllByRecursion};
ghost use Rattle.file_rescues.specs.Found.{has_records};
ghost use Rattle.file_rescues.specs.LongRecords.{AreDiskRecordsTaken, AreLinesStopped, AreRecordsOut, WhyNoDiskRecords, WhyNotOut, long_lines};
ghost use Rattle.long_chains.specs.Sectors.{HasSector};

use crate::finding::{Candidates, Kind};
use crate::forms::RecordForm;
use crate::long_files::read_long;
use crate::long_finding::{LongFile, find_long_file};
use crate::piece_printing::print_pieces;
use crate::record_printing::records_image;
use crate::unclosed_records::unclosed_records_image;
use arrayvec::ArrayVec;
use command_faults::{CommandFault, flush};
use d64_image::Place;
use damaged_files::disk_in;
use disk_layout::EntryView;
use std::alloc::Global;
use std::io::Write;

/// Prints the records of the first relative file of this name among the candidates on a disk of 35 tracks.
fn disk_records<W: Write>(
    alloc: Global,
    image: &[u8],
    candidates: Candidates,
    name: &[u8],
    form: RecordForm,
    out: &mut W,
) -> Result<Option<Place>, CommandFault>
    ensures ok { IfOk result (AreDiskRecordsTaken W.contents form candidates image.now name.now out.old out.new) }
    ensures err { IfErr result (WhyNoDiskRecords W.contents form candidates image.now name.now out.old out.new) }
{
    match candidates {
        Candidates::Closed => records_image(alloc, image, name, form, out),
        Candidates::All => unclosed_records_image(alloc, image, name, form, out),
    }
}

/// Prints the records of a file with these sectors, and returns how that ends.
fn print_long_records<W: Write>(
    alloc: Global,
    image: &[u8],
    file: &LongFile,
    chain: &[u16],
    form: RecordForm,
    out: &mut W,
) -> Result<Option<Place>, CommandFault>
    requires records { IsTrue (has_records file.now.slot) }
    requires inside { AllByRecursion (HasSector image.now) chain.now }
    requires few { length chain.now ≤ 802 }
    ensures ok { IfOk result (λ cut. (file.now.apart ≡ None) × (cut ≡ None)
        × Appends (W.contents out.old) (W.contents out.new) (long_lines form image.now file.now.slot chain.now)) }
    ensures err { IfErr result (AreLinesStopped W.contents form (long_lines form image.now file.now.slot chain.now) file.now.apart
        out.old out.new) }
{
    let bytes = read_long(alloc, image, chain)?;
    let size = EntryView::new(&file.slot.bytes).record_length() as usize;
    print_pieces(out, form, bytes.as_slice(), size)?;
    flush(out)?;
    match file.apart {
        Some(fault) => Err(CommandFault::Layout(fault)),
        None => Ok(None),
    }
}

/// Prints the records of the first relative file of this name among the candidates, one a line, record 1 first, of an image of 35, 40 or
/// 42 tracks, with error bytes or without.
///
/// They are those of its first 35 tracks, as `records_image` prints them of closed files and `unclosed_records_image` of all. But if the
/// chain of the file is broken on tracks 1 to 35, and the image has on 40 or 42 tracks all of the chain, up to its end, then all records
/// are printed, and the chain has no fault: whole records are cut from the bytes of the chain, without side sectors, and the rest of the
/// disk isn't checked. The error is then `Layout` with the first of these faults: what ends the directory early, `OwnedTwice` at the
/// file's first block on tracks 1 to 35 that the map, the directory or another entry has too, and `Unclosed`.
pub fn file_records_image<W: Write>(
    alloc: Global,
    image: &[u8],
    candidates: Candidates,
    name: &[u8],
    form: RecordForm,
    out: &mut W,
) -> Result<Option<Place>, CommandFault>
    ensures ok { IfOk result (AreRecordsOut W.contents form candidates image.now name.now out.old out.new) }
    ensures err { IfErr result (WhyNotOut W.contents form candidates image.now name.now out.old out.new) }
{
    let mut chain = ArrayVec::new();
    let found = find_long_file(alloc, image, Kind::Records(candidates), name, &mut chain)?;
    match found {
        Some(file) => print_long_records(alloc, image, &file, chain.as_slice(), form, out),
        None => disk_records(alloc, disk_in(image), candidates, name, form, out),
    }
}
