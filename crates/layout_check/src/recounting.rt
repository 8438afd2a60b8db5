//! The block counts of the relative entries, made right.
ghost use Rattle.std.specs.Prelude.{◌≡◌, ◌<◌, IfErr, List, OnOk, length};
ghost use Rattle.d64_image.specs.Images.{Image, sector};
ghost use Rattle.disk_layout.specs.Directory.{IsDirectory, slot_in};
ghost use Rattle.disk_layout.specs.Entries.{IsRecounted};
ghost use Rattle.disk_layout.specs.Layout.{IsLayout, Layout};
ghost use Rattle.d64_image.specs.declared.place.Place.{Place};
ghost use Rattle.disk_layout.specs.declared.slot.Slot.{Slot};
ghost use Rattle.layout_check.specs.Calls.{Passes, TellsUnsound};
ghost use Rattle.layout_check.specs.Mending.{MendsCounts, MendsSector};
ghost use Rattle.layout_check.specs.Owners.{NumbersEach, NumbersFiles};
ghost use Rattle.layout_check.specs.Recounted.{AreRightIn, GetsCounts, IsDirectorySector, IsRightAt};

use crate::owners::Owners;
use arrayvec::ArrayVec;
use d64_image::{Place, Sectors};
use disk_layout::{
    EntryView, Fault, MOST_BLOCKS, Slot, directory_start, read_sector, set_count, walk_chain,
    write_other,
};

/// Makes the block count of one slot right in the bytes of its directory sector, if the slot is a relative entry's.
/// `owners` numbers the files of the disk.
fn recount_slot(bytes: &mut [u8; 256], place: Place, number: u8, owners: &Owners)
    requires { number < 8 }
    ensures rest { IsRecounted bytes.old bytes.new number }
    // a count that is right is left as it is
    ensures counted { (img : Image) → IsDirectorySector img place → NumbersEach owners.now img
        → slot_in place bytes.old number ≡ slot_in place (sector img place) number
        → GetsCounts (λ b. IsRightAt img place b number) bytes.old bytes.new }
{
    let slot = Slot::in_sector(bytes, place, number);
    let entry = EntryView::new(&slot.bytes);
    if !entry.is_relative() {
        return;
    }
    if let Some(first) = entry.first_block() {
        set_count(bytes, number, owners.owned_with(first));
    }
}

/// Makes the block counts right in the bytes of a directory sector of a sound disk. `owners` numbers the files of the
/// disk.
fn recount_sector(bytes: &mut [u8; 256], place: Place, owners: &Owners)
    // counts that are right are left as they are
    ensures { (img : Image) → IsDirectorySector img place → NumbersEach owners.now img
        → bytes.old ≡ sector img place → GetsCounts (AreRightIn img place) bytes.old bytes.new }
{
    for number in 0..8u8 {
        recount_slot(bytes, place, number, owners);
    }
}

/// Makes the block counts right in a directory sector of a sound disk, in others of which they may have been made right
/// before. The sector is written if one of them is wrong. `owners` numbers the files of the disk.
fn mend_sector<D: Sectors>(disk: &mut D, place: Place, owners: &Owners) -> Result<(), Fault>
    ensures { (img : Image) → IsDirectorySector img place → NumbersEach owners.now img
        → sector (D.history.image disk.old) place ≡ sector img place
        → MendsSector D.history disk.old disk.new img place result }
{
    let mut had = [0u8; 256];
    read_sector(disk, place, &mut had)?;
    let mut bytes = had;
    recount_sector(&mut bytes, place, owners);
    write_other(disk, place, &had, &bytes)
}

/// Finds the sectors of a directory that is right, in order.
fn find_directory<D: Sectors>(
    disk: &mut D,
    places: &mut ArrayVec<Place, MOST_BLOCKS>,
) -> Result<(), Fault>
    requires { (ps : List Place) × (slots : List Slot) × IsDirectory (D.history.image disk.old) ps slots }
    ensures directory { OnOk result
        ((ps : List Place) (slots : List Slot) → IsDirectory (D.history.image disk.old) ps slots
        → places.new.items ≡ ps) }
    ensures ok { OnOk result (Passes D.history disk.old disk.new (length places.new.items)) }
    ensures err { IfErr result (TellsUnsound D.history disk.old disk.new 683) }
{
    walk_chain(disk, directory_start(), places)?;
    Ok(())
}

/// Makes the block counts of the relative entries of a sound disk right: each is the number of the entry's data blocks
/// and side sectors, by the owners that a survey found. Visits the directory's sectors in order, and writes a sector,
/// once, if a count in it is wrong. Nothing else changes. If all counts are right, nothing is written.
///
/// The only error is `Device`, if the device failed; the sectors before that one then have right counts.
pub(crate) fn mend_counts<D: Sectors>(disk: &mut D, owners: &Owners) -> Result<(), Fault>
    requires { (l : Layout) × IsLayout (D.history.image disk.old) l × NumbersFiles owners.now l }
    ensures { MendsCounts D.history disk.old disk.new result }
{
    let mut places = ArrayVec::new();
    find_directory(disk, &mut places)?;
    for &place in places.as_slice() {
        mend_sector(disk, place, owners)?;
    }
    Ok(())
}
