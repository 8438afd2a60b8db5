//! Places of the D64 layout, and images that are taken.
use crate::comparing::{same, same_at};
use crate::layers::disks::zeroed;
use d64_image::{ImageFault, MemDisk, Place};
use std::process::Abort;

/// So many zeros.
fn zeros(rt: &(impl Abort + AllocGlobal), size: usize) -> Vec<u8> {
    vec![in rt.alloc(); 0; size].expect(rt, "there is memory")
}

/// An image with another number in the first byte of each sector.
fn numbered(rt: &(impl Abort + AllocGlobal)) -> Vec<u8> {
    let mut bytes = zeros(rt, 174_848);
    let mut number: u8 = 0;
    for sector in bytes.as_mut_slice().chunks_exact_mut(256) {
        number = number.wrapping_add(1);
        if let Some(first) = sector.first_mut() {
            *first = number;
        }
    }
    bytes
}

/// A track, a sector, and where it stands in an image, counted in sectors, if there is such a one.
type Placed = (u8, u8, Option<usize>);

/// The published table gives byte offsets: track 18 begins at $16500, track 25 at $1EA00, track 31 at $25600.
static PLACES: [Placed; 17] = [
    (1, 0, Some(0)),
    (1, 20, Some(20)),
    (2, 0, Some(21)),
    (17, 20, Some(356)),
    (18, 0, Some(0x16500 / 256)),
    (24, 18, Some(489)),
    (25, 0, Some(0x1EA00 / 256)),
    (30, 17, Some(597)),
    (31, 0, Some(0x25600 / 256)),
    (35, 16, Some(682)),
    (0, 0, None),
    (1, 21, None),
    (18, 19, None),
    (25, 18, None),
    (31, 17, None),
    (36, 0, None),
    (255, 255, None),
];

/// Checks that a place has this track, sector and index, or that there is none.
fn is_placed(rt: &impl Abort, found: Option<Place>, (track, number, index): Placed) {
    match (found, index) {
        (Some(place), Some(index)) => {
            let told = (place.track(), place.sector(), place.index());
            same(rt, told, (track, number, index));
        }
        (found, index) => same_at(rt, (found, index), (None, None), (track, number)),
    }
}

#[test]
fn places_of_the_layout(rt: HostRuntime) {
    for &(track, number, index) in &PLACES {
        is_placed(&rt, Place::new(track, number), (track, number, index));
    }
    same(&rt, Place::new(1, 0), Some(Place::default()));
}

#[test]
fn an_image_is_loaded(rt: HostRuntime) {
    let bytes = numbered(&rt);
    let disk = MemDisk::load(rt.alloc(), bytes.as_slice()).expect(&rt, "a disk");
    same(&rt, disk.bytes(), bytes.as_slice());
}

/// Checks that so many bytes are no image.
fn is_no_image(rt: &(impl Abort + AllocGlobal), size: usize) {
    let fault = MemDisk::load(rt.alloc(), zeros(rt, size).as_slice()).err();
    same_at(rt, fault, Some(ImageFault::Size), size);
}

// No bytes, one too few, and an image with error bytes.
#[test]
fn an_image_of_another_size_is_refused(rt: HostRuntime) {
    is_no_image(&rt, 0);
    is_no_image(&rt, 174_847);
    is_no_image(&rt, 175_531);
    same(
        &rt,
        [ImageFault::Size.number(), ImageFault::NoMemory.number()],
        [1, 2],
    );
}

// A body that always refuses is proved: no clause can say that memory is there.
#[test]
fn a_disk_of_zeros(rt: HostRuntime) {
    same(&rt, zeroed(&rt).bytes(), zeros(&rt, 174_848).as_slice());
}
