//! What a loss of power leaves.
use crate::bytes::{end, front, put, rest};
use crate::files::{Change, Inode, make};
use crate::names::{Name, NameChange, bring};
use crate::random::Random;
use std::io;

/// How many bytes a disk may write at once.
static PIECES: [usize; 3] = [512, 4096, 65_536];

/// Out of so many pieces a drawn number is on the disk, about.
const OUT_OF: u64 = 8;

/// How much of the changes of a file that weren't synced is on the disk.
#[derive(Clone, Copy, PartialEq, Eq)]
enum Way {
    All,
    None,
    /// Each change whole or not at all.
    Some,
    /// Each piece of each change.
    Pieces,
    /// The first ones, the last of which is torn.
    Start,
    /// Each byte of each change.
    Bytes,
}

static WAYS: [Way; 8] = [
    Way::All,
    Way::None,
    Way::Some,
    Way::Some,
    Way::Pieces,
    Way::Start,
    Way::Bytes,
    Way::Bytes,
];

/// Some of the bytes of a piece, each for itself.
fn mix(held: &mut [u8], bytes: &[u8], random: &mut Random) {
    let mut coins = 0;
    for (at, (there, byte)) in held.iter_mut().zip(bytes).enumerate() {
        if at % 64 == 0 {
            coins = random.draw();
        }
        if coins & 1 == 1 {
            *there = *byte;
        }
        coins >>= 1;
    }
}

/// Ensures that a file has bytes up to there.
fn reach(held: &mut Vec<u8>, upto: usize) -> io::Result<()> {
    if held.len() < upto {
        return end(held, upto);
    }
    Ok(())
}

/// Some of the bytes of a change, each for itself.
fn mix_change(held: &mut Vec<u8>, change: &Change, random: &mut Random) -> io::Result<()> {
    reach(held, change.at.saturating_add(change.bytes.len()))?;
    if let Some(there) = held.as_mut_slice().get_mut(change.at..) {
        mix(there, change.bytes.as_slice(), random);
    }
    Ok(())
}

/// How many bytes a disk writes at once.
fn draw_piece(random: &mut Random) -> usize {
    let drawn = random.index(PIECES.len());
    PIECES.get(drawn).copied().unwrap_or(512)
}

/// Some pieces of a change: few of them, or many.
fn put_pieces(held: &mut Vec<u8>, change: &Change, random: &mut Random) -> io::Result<()> {
    let mut left = change.bytes.as_slice();
    let mut at = change.at;
    let piece = draw_piece(random);
    let part = random.below(OUT_OF.saturating_add(1));
    let pieces = left.len().checked_div(piece).unwrap_or(0);
    for _ in 0..=pieces {
        if random.below(OUT_OF) < part {
            put(held, at, front(left, piece))?;
        }
        left = rest(left, piece);
        at = at.saturating_add(piece);
    }
    Ok(())
}

/// The first bytes of a change.
fn put_front(held: &mut Vec<u8>, change: &Change, random: &mut Random) -> io::Result<()> {
    let count = random.index(change.bytes.len());
    put(held, change.at, front(change.bytes.as_slice(), count))
}

/// What a loss of power leaves of a change.
fn leave(held: &mut Vec<u8>, change: &Change, way: Way, random: &mut Random) -> io::Result<()> {
    let whole = way == Way::All || (way == Way::Some || change.ends) && random.once_in(2);
    if whole {
        return make(held, change);
    }
    if change.ends {
        return Ok(());
    }
    match way {
        Way::Pieces => put_pieces(held, change, random),
        Way::Start => put_front(held, change, random),
        Way::Bytes => mix_change(held, change, random),
        Way::All | Way::None | Way::Some => Ok(()),
    }
}

/// The way of the change with this number, if the first ones are there up to the last of them.
fn way_of(way: Way, number: usize, last: usize) -> Way {
    if way != Way::Start || number == last {
        return way;
    }
    if number < last { Way::All } else { Way::None }
}

/// What a loss of power leaves of changes.
fn leave_all(held: &mut Vec<u8>, changes: &[Change], random: &mut Random) -> io::Result<()> {
    let drawn = random.index(WAYS.len());
    let way = WAYS.get(drawn).copied().unwrap_or(Way::None);
    let last = random.index(changes.len());
    for (number, change) in changes.iter().enumerate() {
        leave(held, change, way_of(way, number, last), random)?;
    }
    Ok(())
}

/// What a loss of power leaves of a file.
pub(crate) fn leave_file(file: &mut Inode, random: &mut Random) -> io::Result<()> {
    if file.waiting.is_empty() {
        return Ok(());
    }
    leave_all(&mut file.disk, file.waiting.as_slice(), random)?;
    file.waiting.clear();
    file.held.clear();
    put(&mut file.held, 0, file.disk.as_slice())
}

/// Gives changes another order.
fn shuffle(changes: &mut [NameChange], random: &mut Random) {
    let count = changes.len();
    for at in 0..count {
        let other = random.index(count);
        if other < count {
            changes.swap(at, other);
        }
    }
}

/// What a loss of power leaves of the changes of names: some of them, perhaps in another order.
pub(crate) fn leave_names(names: &mut [Name], changes: &mut [NameChange], random: &mut Random) {
    let way = random.below(4);
    if way == 0 {
        shuffle(changes, random);
    }
    for change in changes {
        if way == 1 || way != 2 && random.once_in(2) {
            bring(names, *change);
        }
    }
}
