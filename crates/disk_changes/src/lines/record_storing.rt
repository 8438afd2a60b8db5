//! Records of a relative file stored from a text.
ghost use Rattle.std.specs.Prelude.{◌≡◌, IfErr, OnOk};
ghost use Rattle.d64_image.specs.Memory.{sectors_in};
ghost use Rattle.disk_changes.specs.lines.Storing.{IsStoreDone, IsStoreFault, IsStorePart};

use crate::judging::check_usable;
use crate::lines::judging::check_lines;
use crate::lines::last_lines::LastLines;
use crate::lines::storing::store_lines;
use command_faults::{CommandFault, flush};
use d64_image::Sectors;
use rel_records::{find, grow_to};
use std::alloc::Global;
use std::io::Write;

/// Stores records in the first closed relative file of this name, and prints the lines of those that changed, as
/// `records_image` prints them. The disk is clean, or would be but for sectors that its map calls taken and nobody owns:
/// these stay taken. `image` is what the disk holds: its 174,848 bytes. Each line of the text is one that `read_line` reads, of any record that the file has or can have, in any order. If two lines are of one record,
/// the last counts, and the others are only checked. The file grows first, once, to the greatest record. Then the lines
/// that count are stored in order: each record that differs gets the line's bytes and zeros after them. Records without a
/// line stay.
///
/// Files that are whole stay so at each moment, unless a shop's `REQUESTS` grows: power that goes then leaves it with one
/// block more listed than its chain has. Every image that the disk holds on the way is sound, has the other files as they
/// are, and a prefix of the lines that count stored; of the next record the first part may be new. So this text, stored
/// again, writes and prints nothing.
///
/// `ImageSize`, `NoMemory`; `Layout` if more is wrong with the disk, for a fault that holds; `NoFile`; `BadLine` for the first
/// line that is no record's, has more bytes than a record, or a number that the file can't have: one past 65535 that it
/// hasn't, or that would need more than 720 blocks; `DiskFull` if the free sectors don't suffice for the greatest record.
/// Nothing was written or printed then. `Device` if the device failed, and `File` if the output did: what was stored
/// until then stays, and its lines are printed, at `File` the last of them perhaps not to its end. Memory is taken for two copies of the image, and then for a number of each record that a line can be of.
pub fn store_image<D: Sectors, W: Write>(
    alloc: Global,
    image: &[u8],
    name: &[u8],
    text: &[u8],
    disk: &mut D,
    out: &mut W,
) -> Result<(), CommandFault>
    requires holds { D.history.image disk.old ≡ sectors_in image.now }
    ensures ok { OnOk result (IsStoreDone D.history W.contents image.now name.now text.now disk.old disk.new
        out.old out.new) }
    ensures err { IfErr result (IsStoreFault D.history image.now name.now text.now disk.old disk.new out.old out.new) }
    ensures part { IfErr result (IsStorePart D.history W.contents image.now name.now text.now disk.old disk.new
        out.old out.new) }
{
    check_usable(alloc, image)?;
    let mut last = LastLines::none(alloc)?;
    let mut file = find(disk, name)?;
    let most = check_lines(text, &file, &mut last)?;
    grow_to(disk, &mut file, most)?;
    store_lines(disk, &mut file, text, &last, out)?;
    flush(out)
}
