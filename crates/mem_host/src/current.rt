//! What a system in memory has now.
ghost use Rattle.std.specs.Prelude.{◌≡◌, IfSome};
ghost use Rattle.one_host.specs.Calls.{entry};
ghost use Rattle.one_host.specs.Worlds.{World};
ghost use Rattle.mem_host.specs.Moves.{acted, world_of};

use crate::moves::Move;
use one_host::{Entry, Kind};

/// What a path leads to after a change.
fn entry_after(was: Entry, path: &[u8], what: &Move) -> Entry
    ensures { (w : World) → was ≡ entry w path.now → result ≡ entry (acted w what.now) path.now }
{
    match what {
        Move::Made(number, other, _, _) => {
            if path == other.as_slice() {
                return Entry::Leads(*number);
            }
            was
        }
        Move::Entered(other, found) | Move::Meddled(other, found) => {
            if path == other.as_slice() {
                return *found;
            }
            was
        }
        Move::Moved(from, to, found) => {
            if path == from.as_slice() {
                return Entry::Nothing;
            }
            if path == to.as_slice() {
                return *found;
            }
            was
        }
        _ => was,
    }
}

/// What a path leads to.
pub(crate) fn entry_at(moves: &[Move], path: &[u8]) -> Entry
    ensures { result ≡ entry (world_of moves.now) path.now }
{
    let mut entry = Entry::Nothing;
    for i in 0..moves.len() {
        entry = entry_after(entry, path, &moves[i]);
    }
    entry
}

/// The bytes of a file after a change.
fn bytes_after<'a>(was: &'a [u8], number: usize, what: &'a Move) -> &'a [u8]
    ensures { (w : World) → was.now ≡ (w.files number).bytes.now → result.now ≡ ((acted w what.now).files number).bytes.now }
{
    match what {
        Move::Made(other, _, _, _) if number == *other => &[],
        Move::Changed(other, changed) if number == *other => changed.as_slice(),
        _ => was,
    }
}

/// The bytes of a file.
pub(crate) fn bytes_of(moves: &[Move], number: usize) -> &[u8]
    ensures { result.now ≡ ((world_of moves.now).files number).bytes.now }
{
    let mut bytes: &[u8] = &[];
    for i in 0..moves.len() {
        bytes = bytes_after(bytes, number, &moves[i]);
    }
    bytes
}

/// What a file is after a change.
fn kind_after(was: Kind, number: usize, what: &Move) -> Kind
    ensures { (w : World) → was ≡ (w.files number).kind → result ≡ ((acted w what.now).files number).kind }
{
    match what {
        Move::Made(other, _, kind, _) if number == *other => *kind,
        _ => was,
    }
}

/// What a file is.
pub(crate) fn kind_of(moves: &[Move], number: usize) -> Kind
    ensures { result ≡ ((world_of moves.now).files number).kind }
{
    let mut kind = Kind::Regular;
    for i in 0..moves.len() {
        kind = kind_after(kind, number, &moves[i]);
    }
    kind
}

/// The mode of a file after a change.
fn mode_after(was: u32, number: usize, what: &Move) -> u32
    ensures { (w : World) → was ≡ (w.files number).mode → result ≡ ((acted w what.now).files number).mode }
{
    match what {
        Move::Made(other, _, _, mode) | Move::Guarded(other, mode) if number == *other => *mode,
        _ => was,
    }
}

/// The mode of a file.
pub(crate) fn mode_of(moves: &[Move], number: usize) -> u32
    ensures { result ≡ ((world_of moves.now).files number).mode }
{
    let mut mode = 0;
    for i in 0..moves.len() {
        mode = mode_after(mode, number, &moves[i]);
    }
    mode
}

/// How many numbers were given after a change.
fn used_after(was: usize, what: &Move) -> Option<usize>
    ensures { IfSome result (λ count. (w : World) → was ≡ w.used → count ≡ (acted w what.now).used) }
{
    match what {
        Move::Made(number, _, _, _) => number.checked_add(1),
        _ => Some(was),
    }
}

/// How many numbers of files were given.
pub(crate) fn used(moves: &[Move]) -> Option<usize>
    ensures { IfSome result (λ count. count ≡ (world_of moves.now).used) }
{
    let mut count = 0usize;
    for i in 0..moves.len() {
        count = used_after(count, &moves[i])?;
    }
    Some(count)
}

/// How many bytes of the input were read.
pub(crate) fn heard_by(moves: &[Move]) -> usize {
    let mut heard = 0usize;
    for i in 0..moves.len() {
        if let Move::Heard(count, _) = &moves[i] {
            heard = heard.saturating_add(*count);
        }
    }
    heard
}
