//! Side sectors with values from the 1541's format, and the texts of faults.
use crate::comparing::same;
use crate::layers::disks::at;
use disk_layout::{Fault, SideView, side_bytes};
use std::process::Abort;

// The side sector of a file whose one block is 17/0 and whose one side sector is 17/1, with records of 18 bytes.
#[test]
fn one_side_sector(rt: HostRuntime) {
    let mut want = [0; 256];
    want[1] = 17;
    want[3] = 18;
    want[4] = 17;
    want[5] = 1;
    want[16] = 17;
    same(&rt, side_bytes(0, &[at(17, 0)], &[at(17, 1)], 18), want);
}

/// Side sectors of a file of 121 blocks, all of which are 17/0: 17/1 and 17/2.
fn side(number: u8) -> [u8; 256] {
    side_bytes(number, &[at(17, 0); 121], &[at(17, 1), at(17, 2)], 18)
}

#[test]
fn two_side_sectors(rt: HostRuntime) {
    let (first, second) = (side(0), side(1));
    let heads = (&first[..8], &second[..8]);
    let wanted = (
        [17, 2, 0, 18, 17, 1, 17, 2].as_slice(),
        [0, 17, 1, 18, 17, 1, 17, 2].as_slice(),
    );
    same(&rt, heads, wanted);
    let view = SideView::new(&second);
    let told = (view.number(), view.record_length(), view.next());
    same(&rt, told, (1, 18, None));
    let told = (view.side(1), view.block(0), view.block(1));
    same(&rt, told, (Some(at(17, 2)), Some(at(17, 0)), None));
}

/// Checks that a fault has this text and number.
fn is_told(rt: &(impl Abort + AllocGlobal), fault: Fault, text: &str, number: u8) {
    let told = fault.to_string(rt.alloc()).expect(rt, "a text");
    same(rt, (told.as_str(), fault.number()), (text, number));
}

#[test]
fn texts_and_numbers(rt: HostRuntime) {
    let place = at(18, 1);
    is_told(&rt, Fault::BadLink(place), "BADLINK 18/1", 1);
    is_told(&rt, Fault::Loop(place), "LOOP 18/1", 2);
    is_told(&rt, Fault::OwnedTwice(place), "OWNEDTWICE 18/1", 3);
    is_told(&rt, Fault::BadType(place), "BADTYPE 18/1", 4);
    is_told(&rt, Fault::Unclosed(place), "UNCLOSED 18/1", 5);
    is_told(&rt, Fault::BadSide(place), "BADSIDE 18/1", 6);
    is_told(&rt, Fault::BadLength(place), "BADLENGTH 18/1", 7);
    is_told(&rt, Fault::CountWrong(place), "COUNTWRONG 18/1", 8);
    is_told(&rt, Fault::MapWrong(place), "MAPWRONG 18/1", 9);
    is_told(&rt, Fault::Device(place), "DEVICE 18/1", 10);
}
