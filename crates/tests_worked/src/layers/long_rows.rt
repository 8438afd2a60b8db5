//! A file of two side sectors, each hurt in turn.
use crate::comparing::same_at;
use crate::growth_rows::grown;
use crate::layers::disks::{at, change};
use disk_layout::Fault;
use layout_check::{check, survey};

/// A byte of a side sector that isn't what it is to be, and the sector at which this is reported.
type Changed = (&'static str, (u8, u8), u8, (u8, u8));

/// STOCK has 121 blocks, the last one 14/3, and the side sectors 17/1 and 14/4: each is checked by its number, the list, its
/// link and its pointers.
static CHANGED: [Changed; 6] = [
    ("number", (14, 4), 2, (14, 4)),
    ("list of the second", (14, 4), 7, (14, 4)),
    ("list of the first", (17, 1), 7, (17, 1)),
    // it links to 14/7, and lists 14/4 as the next
    ("link", (17, 1), 1, (17, 1)),
    ("pointer to the last block", (14, 4), 17, (14, 4)),
    ("pointer to the block before", (17, 1), 255, (17, 1)),
];

#[test]
fn a_long_file(rt: HostRuntime) {
    same_at(&rt, check(&mut grown(&rt, 1694)).is_ok(), true, "whole");
    for &(name, (track, number), byte, told) in &CHANGED {
        let mut disk = grown(&rt, 1694);
        change(&mut disk, at(track, number), (byte, 7), (byte, 7));
        let wanted = Some(Fault::BadSide(at(told.0, told.1)));
        same_at(&rt, survey(&mut disk).err(), wanted, name);
    }
}
