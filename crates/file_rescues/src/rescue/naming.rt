//! Names of the files that are made of entries.
ghost use Rattle.std.specs.Prelude.{◌≡◌, ◌≤◌, length};
ghost use Rattle.file_rescues.specs.rescue.Named as named;

use damaged_files::entry_name;
use disk_layout::Slot;
use line_text::{Ending, FileName, file_name};

/// How many letters the ending of a name has, without the full stop.
const ENDING: usize = 3;

/// The name of the CVT of the entry with this number and this name.
fn cvt_name(number: u8, name: &[u8]) -> FileName
    requires { length name.now ≤ 16 }
    ensures { result.items ≡ named.cvt_name number name.now }
{
    let mut text = file_name(number, name, Ending::Prg);
    text.truncate(text.len().saturating_sub(ENDING));
    let _ = text.try_extend_from_slice(b"cvt");
    text
}

/// The name of the file with the bytes of the entry with this number, by whether they are a CVT.
pub(crate) fn first_name(number: u8, is_cvt: bool, slot: &Slot) -> FileName
    ensures { result.items ≡ named.first_name number is_cvt slot.now }
{
    let name = entry_name(slot);
    if is_cvt {
        return cvt_name(number, name);
    }
    file_name(number, name, Ending::of_type(slot.bytes[2]))
}
