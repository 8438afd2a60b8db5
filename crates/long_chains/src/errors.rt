//! The sectors past track 35 that a drive couldn't read when an image was made.
ghost use Rattle.std.specs.Prelude.{◌≡◌, ◌<◌, ◌+◌, ◌++◌, ◌≤◌, ◌∷◌, [], filter, length};
ghost use Rattle.long_chains.specs.Sectors as specs;
ghost use Rattle.long_chains.specs.Sectors.{is_misread};

use crate::sectors::error_in;
use arrayvec::ArrayVec;

/// How many sectors the tracks 36 to 42 have.
pub const SECTORS_PAST: usize = 119;

/// The number of the first of them.
const FIRST_PAST: u16 = 683;

/// Adds a sector, if it wasn't read.
fn add_misread(image: &[u8], number: u16, numbers: &mut ArrayVec<u16, SECTORS_PAST>)
    requires { length numbers.old.items < 119 }
    ensures items { numbers.new.items ≡ numbers.old.items ++ filter (is_misread image.now) (number ∷ []) }
    ensures few { length numbers.new.items ≤ length numbers.old.items + 1 }
{
    if error_in(image, number).is_some() {
        numbers.push(number);
    }
}

/// The numbers of the sectors of tracks 36 to 42 that weren't read when the image was made, in order. There are none if the image has no
/// error bytes.
pub fn misread_past(image: &[u8]) -> ArrayVec<u16, SECTORS_PAST>
    ensures { result.items ≡ specs.misread_past image.now }
{
    let mut numbers = ArrayVec::new();
    for past in 0..SECTORS_PAST as u16 {
        add_misread(image, FIRST_PAST + past, &mut numbers);
    }
    numbers
}
