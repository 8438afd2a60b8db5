//! The disks of the rows. If one can't be made, or isn't what it is to be, the test ends there: on the way out of a `?`
//! all that a row holds would be dropped, and proved.
ghost use Rattle.std.specs.Prelude.{◌≡◌, ◌≤◌};
ghost use Rattle.d64_image.specs.Memory.{disk_image, sectors_in};
ghost use Rattle.disk_layout.specs.Clean.{IsClean};
ghost use Rattle.disk_layout.specs.Layout.{IsSound};
ghost use Rattle.rel_records.specs.File.{IsOf};

use crate::comparing::same_at;
use d64_image::{Fuse, MemDisk, Meter, Place, Sectors};
use disk_layout::blank_image;
use layout_check::{check, survey};
use rel_records::{RelFile, find};
use std::process::Abort;

/// A disk of zeros.
pub(crate) fn zeroed(rt: &(impl Abort + AllocGlobal)) -> MemDisk {
    MemDisk::zeroed(rt.alloc()).expect(rt, "a disk of zeros")
}

/// The blank disk for so many tills.
pub(crate) fn blank(rt: &(impl Abort + AllocGlobal), tills: u8) -> MemDisk
    requires some { 1 ≤ tills }
    requires few { tills ≤ 64 }
{
    let mut disk = zeroed(rt);
    blank_image(&mut disk, b"STOCK LEDGER", *b"01", tills).expect(rt, "a blank disk");
    disk
}

/// The blank disk for two tills: STOCK in 17/0 (18 bytes a record, 14 of them) with the side sector 17/1, REQUESTS in
/// 17/2 with the side sector 17/3. So 17/4 is the next free sector.
pub(crate) fn fresh(rt: &(impl Abort + AllocGlobal)) -> MemDisk {
    blank(rt, 2)
}

/// The disk of these bytes.
pub(crate) fn loaded(rt: &(impl Abort + AllocGlobal), image: &[u8]) -> MemDisk
    ensures { disk_image result ≡ sectors_in image.now }
{
    MemDisk::load(rt.alloc(), image).expect(rt, "a disk of these bytes")
}

/// A copy of the disk whose writes are counted, and whose power goes after so many.
pub(crate) fn fused(
    rt: &(impl Abort + AllocGlobal),
    disk: &MemDisk,
    power: u32,
) -> Meter<Fuse<MemDisk>> {
    Meter::new(Fuse::new(loaded(rt, disk.bytes()), power))
}

/// How many writes passed, and the disk then.
pub(crate) fn passed(meter: Meter<Fuse<MemDisk>>) -> (u64, MemDisk) {
    (meter.writes(), meter.into_inner().into_inner())
}

/// Power that doesn't go: more writes than any disk takes in a row.
pub(crate) const WHOLE: u32 = u32::MAX;

/// Checks that the disk is clean.
pub(crate) fn clean<D: Sectors>(rt: &impl Abort, disk: &mut D)
    ensures { IsClean (D.history.image disk.new) }
{
    match check(disk) {
        Ok(_) => {}
        Err(fault) => panic!(rt; "the disk isn't clean: {fault:?}"),
    }
}

/// The file of this name, of a clean disk.
pub(crate) fn found<D: Sectors>(rt: &impl Abort, disk: &mut D, name: &[u8]) -> RelFile
    ensures clean { IsClean (D.history.image disk.new) }
    ensures of { IsOf (D.history.image disk.new) result }
{
    clean(rt, disk);
    match find(disk, name) {
        Ok(file) => file,
        Err(fault) => panic!(rt; "the file isn't found: {fault:?}"),
    }
}

/// Checks that the disk is sound.
fn sound<D: Sectors>(rt: &impl Abort, disk: &mut D)
    ensures { IsSound (D.history.image disk.new) }
{
    match survey(disk) {
        Ok(_) => {}
        Err(fault) => panic!(rt; "the disk isn't sound: {fault:?}"),
    }
}

/// STOCK of a sound disk.
pub(crate) fn sound_stock<D: Sectors>(rt: &impl Abort, disk: &mut D) -> RelFile
    ensures { IsOf (D.history.image disk.new) result }
{
    sound(rt, disk);
    match find(disk, b"STOCK") {
        Ok(file) => file,
        Err(fault) => panic!(rt; "STOCK isn't found: {fault:?}"),
    }
}

/// The place. One that the disk lacks is 1/0.
pub(crate) fn at(track: u8, number: u8) -> Place {
    Place::new(track, number).unwrap_or_default()
}

/// The bytes of a sector; if it can't be read, EE in each.
pub(crate) fn sector<D: Sectors>(disk: &mut D, track: u8, number: u8) -> [u8; 256] {
    let mut bytes = [0xEE; 256];
    let _ = disk.read(at(track, number), &mut bytes);
    bytes
}

/// The bytes of a sector from this one on, and all after it.
pub(crate) fn bytes_from(disk: &MemDisk, track: u8, number: u8, from: u8) -> &[u8] {
    let Some(place) = Place::new(track, number) else {
        return &[];
    };
    disk.bytes()
        .get(256 * place.index() + usize::from(from)..)
        .unwrap_or(&[])
}

/// Checks that these bytes stand on a sector, from this one of its own on.
pub(crate) fn stands(
    rt: &impl Abort,
    disk: &MemDisk,
    (track, number, from): (u8, u8, u8),
    bytes: &[u8],
) {
    let there = bytes_from(disk, track, number, from).get(..bytes.len());
    same_at(rt, there, Some(bytes), (track, number, from));
}

/// Bytes of a sector: its place, the first of them, how many they are, and a text, after which zeros stand.
pub(crate) type Change = (u8, u8, u8, usize, &'static [u8]);

/// As many as a sector has.
static ZEROS: [u8; 256] = [0; 256];

/// Puts these bytes onto a sector, from this one of its own on.
pub(crate) fn put(disk: &mut MemDisk, (track, number, from): (u8, u8, u8), bytes: &[u8]) {
    let mut all = sector(disk, track, number);
    let mut i = usize::from(from);
    for byte in bytes {
        if let Some(place) = all.get_mut(i) {
            *place = *byte;
        }
        i = i.saturating_add(1);
    }
    let _ = disk.write(at(track, number), &all);
}

/// The disk with these changes.
pub(crate) fn changed(disk: MemDisk, changes: &[Change]) -> MemDisk {
    let mut disk = disk;
    for &(track, number, from, length, text) in changes {
        put(
            &mut disk,
            (track, number, from),
            ZEROS.get(..length).unwrap_or(&ZEROS),
        );
        put(&mut disk, (track, number, from), text);
    }
    disk
}
