//! Records stored in a relative file of an image.
ghost use Rattle.std.specs.Prelude.{[], IfErr, IfOk, vec_items};
ghost use Rattle.disk_changes.specs.declared.changes.Columns.TheVariants.{Text};
ghost use Rattle.disk_changes.specs.Stores.{IsNotStoredAs, IsStoreRefusal, IsStored, IsStoredAs, IsTypedText};

use crate::changes::{Changed, Columns};
use crate::judging::{taken_disk, usable_disk};
use crate::lines::record_storing::store_image;
use crate::lines::typed_lines::typed_lines;
use crate::outcomes::in_memory;
use command_faults::CommandFault;
use damaged_files::Loss;
use line_text::CharacterSet;
use rel_records::find;
use std::alloc::Global;

/// The image with the records of the text's lines stored in the first closed relative file of this name, and the lines of
/// those that changed. Sectors that the map calls taken and nobody owns stay taken.
pub(crate) fn stored(
    alloc: Global,
    image: &[u8],
    name: &[u8],
    text: &[u8],
    cut: Loss,
) -> Result<Changed, CommandFault>
    ensures ok { IfOk result (IsStored image.now name.now text.now cut) }
    ensures err { IfErr result (IsStoreRefusal image.now name.now text.now cut) }
{
    let mut disk = taken_disk(alloc, image, cut)?;
    let mut told = Vec::new(alloc);
    match store_image(alloc, image, name, text, &mut disk, &mut told) {
        Ok(()) => Ok(Changed {
            disk,
            text: told,
            left: 0,
        }),
        Err(fault) => Err(in_memory(fault)),
    }
}

/// The lines of a text that is typed in the characters of this set, over the records of the first closed relative file of this name,
/// as lines that `stored` reads.
fn typed_text(
    alloc: Global,
    image: &[u8],
    name: &[u8],
    set: CharacterSet,
    text: &[u8],
    cut: Loss,
) -> Result<Vec<u8>, CommandFault>
    ensures ok { IfOk result (λ plain. IsTypedText set image.now name.now text.now (vec_items plain)) }
    ensures err { IfErr result (IsStoreRefusal image.now name.now [] cut) }
{
    let mut disk = usable_disk(alloc, image, cut)?;
    let file = find(&mut disk, name)?;
    match typed_lines(alloc, set, text, &mut disk, &file) {
        Ok(plain) => Ok(plain),
        Err(_) => Err(CommandFault::NoMemory),
    }
}

/// The same of a text that is typed in the characters of this set. A line that reads as its record reads already leaves the record's
/// bytes as they are.
fn typed_stored(
    alloc: Global,
    image: &[u8],
    name: &[u8],
    set: CharacterSet,
    text: &[u8],
    cut: Loss,
) -> Result<Changed, CommandFault>
    ensures ok { IfOk result (IsStoredAs (Text set) image.now name.now text.now cut) }
    ensures err { IfErr result (IsNotStoredAs (Text set) image.now name.now text.now cut) }
{
    let plain = typed_text(alloc, image, name, set, text, cut)?;
    stored(alloc, image, name, plain.as_slice(), cut)
}

/// The same of a text whose lines have one column for each record, plain or typed. (Several columns are one already.)
pub(crate) fn stored_as(
    alloc: Global,
    image: &[u8],
    name: &[u8],
    columns: Columns,
    text: &[u8],
    cut: Loss,
) -> Result<Changed, CommandFault>
    ensures ok { IfOk result (IsStoredAs columns image.now name.now text.now cut) }
    ensures err { IfErr result (IsNotStoredAs columns image.now name.now text.now cut) }
{
    match columns {
        Columns::Text(set) => typed_stored(alloc, image, name, set, text, cut),
        _ => stored(alloc, image, name, text, cut),
    }
}
