//! A mirror in any file that is written and sought: the bytes of the file.
use crate::comparing::{same, same_at};
use crate::layers::disks::{at, zeroed};
use d64_image::{DeviceFault, Mirror, Sectors};
use std::io::Cursor;
use std::process::Abort;

/// What the bytes of an image are after the three writes. The published table gives byte offsets: track 18 begins at
/// $16500, and the last sector begins 256 bytes before the end.
fn written(at: usize) -> u8 {
    match at {
        0..256 => 1,
        0x16600..0x16700 => 2,
        174_592..174_848 => 3,
        _ => 0,
    }
}

/// Checks that an image has these bytes.
fn are_written(rt: &impl Abort, bytes: &[u8]) {
    same(rt, bytes.len(), 174_848);
    for (i, byte) in bytes.iter().enumerate() {
        same_at(rt, *byte, written(i), ("byte", i));
    }
}

/// Writes the last sector, the first one, and 18/1.
fn three_writes<D: Sectors>(disk: &mut D) -> [Result<(), DeviceFault>; 3] {
    [
        disk.write(at(35, 16), &[3; 256]),
        disk.write(at(1, 0), &[1; 256]),
        disk.write(at(18, 1), &[2; 256]),
    ]
}

#[test]
fn each_sector_is_written_at_its_place(rt: HostRuntime) {
    let bytes = vec![in rt.alloc(); 0; 174_848].expect(&rt, "there is memory");
    let mut mirror = Mirror::new(Cursor::new(bytes), zeroed(&rt));
    same(&rt, three_writes(&mut mirror), [Ok(()); 3]);
    same(&rt, mirror.is_broken(), false);
    let (file, disk) = mirror.into_inner();
    are_written(&rt, disk.bytes());
    are_written(&rt, file.into_inner().as_slice());
}
