//! The records of a relative file that may be unclosed, by the chain of its blocks.
ghost use Rattle.std.specs.Prelude.{IfErr, IfOk, OnErr};
ghost use Rattle.file_rescues.specs.Printed.{AreUnclosedTaken, IsUnclosedFault, IsUnclosedPart};

use crate::byte_printing::{ended, no_file};
use crate::finding::{Candidates, Kind, find_file};
use crate::forms::RecordForm;
use crate::record_printing::print_reached;
use arrayvec::ArrayVec;
use command_faults::{CommandFault, flush, load};
use d64_image::Place;
use std::alloc::Global;
use std::io::Write;

/// Prints the records of the first relative entry of this name with a record length of 1 to 254, closed or not, one a
/// line, in this form: whole records among the bytes that can be reached, without side sectors. The rest of the disk isn't
/// checked.
///
/// The result and the errors are those of `bytes_image`, and what was printed then is as it says. `NoFile`: no such entry has the name.
pub fn unclosed_records_image<W: Write>(
    alloc: Global,
    image: &[u8],
    name: &[u8],
    form: RecordForm,
    out: &mut W,
) -> Result<Option<Place>, CommandFault>
    ensures ok { IfOk result (AreUnclosedTaken W.contents form image.now name.now out.old out.new) }
    ensures err { IfErr result (IsUnclosedFault W.contents form image.now name.now out.old out.new) }
    ensures part { OnErr result (IsUnclosedPart W.contents form image.now name.now out.old out.new) }
{
    let mut disk = load(alloc, image)?;
    let mut blocks = ArrayVec::new();
    let kind = Kind::Records(Candidates::All);
    let file = match find_file(&disk, kind, name, &mut blocks) {
        Ok(file) => file,
        Err(ended) => return Err(no_file(ended)),
    };
    print_reached(alloc, &disk, file, blocks.as_slice(), form, out)?;
    flush(out)?;
    ended(&mut disk, &file)
}
