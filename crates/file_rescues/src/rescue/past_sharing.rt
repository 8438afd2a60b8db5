//! The sectors past track 35 that several of the files that are rescued have.
ghost use Rattle.std.specs.Prelude.{◌≡◌, ◌+◌, ◌++◌, ◌∷◌, [], ◌<◌, ◌≤◌, filter, length, min, nat_eq};
ghost use Rattle.file_rescues.specs.rescue.Sharing as specs;
ghost use Rattle.file_rescues.specs.rescue.Sharing.{numbers_of};

use crate::rescue::art::is_art;
use crate::rescue::rescuing::Rescued;
use arrayvec::ArrayVec;
use long_chains::SECTORS_PAST;

/// The number of the first sector past track 35.
const FIRST_PAST: u16 = 683;

/// One more than so many, if the numbers are the same; more than two aren't told apart.
fn count_one(other: u16, number: u16, before: usize) -> usize
    requires { before ≤ 2 }
    ensures { result ≡ min 2 (before + length (filter (nat_eq number) (other ∷ []))) }
{
    if number == other {
        2.min(before + 1)
    } else {
        before
    }
}

/// How often the sector with this number is among these and `before` others; more than two aren't told apart.
fn count_in(sectors: &[u16], number: u16, before: usize) -> usize
    requires { before ≤ 2 }
    ensures { result ≡ min 2 (before + length (filter (nat_eq number) sectors.now)) }
{
    let mut count = before;
    for &other in sectors {
        count = count_one(other, number, count);
    }
    count
}

/// How often the sector with this number is one of these files'; more than two aren't told apart.
fn count_of(files: &[Rescued], number: u16) -> usize
    ensures { result ≡ min 2 (length (filter (nat_eq number) (numbers_of files.now))) }
{
    let mut count = 0;
    for file in files {
        count = count_in(file.sectors.as_slice(), number, count);
    }
    count
}

/// Whether so many of these files have the sector with this number, or more.
fn is_so_often(files: &[Rescued], least: usize, number: u16) -> bool
    requires { least ≤ 2 }
    ensures { result ≡ specs.is_so_often least (numbers_of files.now) number }
{
    least <= count_of(files, number)
}

/// Adds a sector, if so many of these files have it, or more.
fn add_past(files: &[Rescued], least: usize, number: u16, numbers: &mut ArrayVec<u16, SECTORS_PAST>)
    requires few { least ≤ 2 }
    requires room { length numbers.old.items < 119 }
    ensures items { numbers.new.items
        ≡ numbers.old.items ++ filter (specs.is_so_often least (numbers_of files.now)) (number ∷ []) }
    ensures few { length numbers.new.items ≤ length numbers.old.items + 1 }
{
    if is_so_often(files, least, number) {
        numbers.push(number);
    }
}

/// The numbers of the sectors of tracks 36 to 42 that so many of these files have, or more, in order.
pub(crate) fn past_of(files: &[Rescued], least: usize) -> ArrayVec<u16, SECTORS_PAST>
    requires { least ≤ 2 }
    ensures { result.items ≡ specs.past_of least files.now }
{
    let mut numbers = ArrayVec::new();
    for past in 0..SECTORS_PAST as u16 {
        add_past(files, least, FIRST_PAST + past, &mut numbers);
    }
    numbers
}

/// The first of these sectors that is among others.
pub(crate) fn first_among(shared: &[u16], sectors: &[u16]) -> Option<u16>
    ensures { result ≡ specs.first_among shared.now sectors.now }
{
    for &number in sectors {
        if shared.contains(&number) {
            return Some(number);
        }
    }
    None
}

/// The first sector of a file that is among the shared ones; none of directory art, which has no file.
pub(crate) fn first_past(shared: &[u16], file: &Rescued) -> Option<u16>
    ensures { result ≡ specs.first_past shared.now file.now }
{
    if is_art(&file.slot) {
        return None;
    }
    first_among(shared, file.sectors.as_slice())
}
