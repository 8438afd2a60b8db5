//! The files of emulators, which hold a file of a disk or a tape after a header.
ghost use Rattle.std.specs.Prelude.{◌≡◌, ◌↔◌, ◌≤◌, ◌+◌, ◌++◌, ◌⊎◌, IfErr, IfOk, IsTrue, None, Some, drop, length, option_map, take, vec_items};
ghost use Rattle.command_faults.specs.declared.faults.CommandFault.TheVariants.{File, NoMemory};
ghost use Rattle.image_edits.specs.Containers as containers;
ghost use Rattle.image_edits.specs.Containers.{cut_of, file_in, lack_of, two_bytes};
ghost use Rattle.opened_files.specs.HostFiles.{IsUnread, OfText};
ghost use Rattle.opened_files.specs.Rights.{MayReadText};

use command_faults::CommandFault;
use image_file::HostFiles;
use opened_files::script_to_play;
use std::alloc::Global;

/// What a P00 file begins with.
const P00: &[u8; 8] = b"C64File\0";

/// The bytes from this one on, if there are any.
fn rest_from(bytes: &[u8], at: usize) -> &[u8]
    ensures { result.now ≡ drop at bytes.now }
{
    if at < bytes.len() { &bytes[at..] } else { &[] }
}

/// The first bytes, or all if there are fewer.
fn first(bytes: &[u8], count: usize) -> &[u8]
    ensures { result.now ≡ take count bytes.now }
{
    if count < bytes.len() {
        &bytes[..count]
    } else {
        bytes
    }
}

/// The number in two bytes, the low one first.
fn number_at(bytes: &[u8], at: usize) -> usize
    requires { at + 2 ≤ length bytes.now }
    ensures { result ≡ two_bytes bytes.now at }
{
    usize::from(bytes[at]) + 256 * usize::from(bytes[at + 1])
}

/// Whether they begin with this text.
fn begins(bytes: &[u8], text: &[u8]) -> bool
    ensures { result ≡ containers.begins text.now bytes.now }
{
    bytes.starts_with(text)
}

/// Whether it is a T64.
fn is_tape(bytes: &[u8]) -> bool
    ensures { result ≡ containers.is_tape bytes.now }
{
    begins(bytes, b"C64S tape file")
        || begins(bytes, b"C64S tape image file")
        || begins(bytes, b"C64 tape image file")
}

/// Whether a T64 has one program: its first entry is used, and it says of no other.
fn has_one(tape: &[u8]) -> bool
    ensures { result ≡ containers.has_one tape.now }
{
    tape.len() >= 96 && tape[64] != 0 && number_at(tape, 36) <= 1
}

/// How many bytes the first entry of a T64 counts.
fn counted_in(tape: &[u8]) -> usize
    requires { 96 ≤ length tape.now }
    ensures { result ≡ containers.counted_in tape.now }
{
    number_at(tape, 68).saturating_sub(number_at(tape, 66))
}

/// Those of them that are there.
fn data_of(tape: &[u8]) -> &[u8]
    requires { 96 ≤ length tape.now }
    ensures { result.now ≡ containers.data_of tape.now }
{
    let data = rest_from(tape, number_at(tape, 72) + 65536 * number_at(tape, 74));
    first(data, counted_in(tape))
}

/// The only program of a T64, in two parts: its address, and what stands after that. None if it has none, or several.
fn tape_parts(tape: &[u8]) -> Option<(&[u8], &[u8])>
    ensures { option_map (λ parts. parts.0.now ++ parts.1.now) result ≡ containers.tape_file tape.now }
{
    if has_one(tape) {
        Some((&tape[66..68], data_of(tape)))
    } else {
        None
    }
}

/// What a file of an emulator lacks of what its header counts.
#[derive(Clone, Copy, Debug, PartialEq, Eq)]
pub struct CutFile {
    /// How many bytes are there.
    pub there: usize,
    /// How many its header counts.
    pub counted: usize,
}

/// What a number of bytes lacks of another one. None if it isn't less.
fn lacking(there: usize, counted: usize) -> Option<CutFile>
    ensures { result ≡ lack_of there counted }
{
    if there < counted {
        Some(CutFile { there, counted })
    } else {
        None
    }
}

/// What a P00 or a T64 lacks: of a P00 a part of its header of 26 bytes, of the only program of a T64 bytes that its entry counts.
/// None of any other file, and of a T64 with no program or with several.
pub fn cut_in(bytes: &[u8]) -> Option<CutFile>
    ensures { result ≡ cut_of bytes.now }
{
    if begins(bytes, P00) {
        return lacking(bytes.len(), 26);
    }
    if is_tape(bytes) && has_one(bytes) {
        return lacking(data_of(bytes).len(), counted_in(bytes));
    }
    None
}

/// The file that a host's file holds, in two parts. None for a T64 with no program, or with several.
fn parts_of(bytes: &[u8]) -> Option<(&[u8], &[u8])>
    ensures { option_map (λ parts. parts.0.now ++ parts.1.now) result ≡ file_in bytes.now }
{
    if begins(bytes, P00) {
        return Some((&[], rest_from(bytes, 26)));
    }
    if is_tape(bytes) {
        tape_parts(bytes)
    } else {
        Some((&[], bytes))
    }
}

/// Whether a host's file holds no file that could be put on a disk: it is a T64 with no program, or with several.
pub fn has_no_file(bytes: &[u8]) -> bool
    ensures { IsTrue result ↔ (file_in bytes.now ≡ None) }
{
    parts_of(bytes).is_none()
}

/// Both parts as one. `NoMemory` if there was none for it.
fn joined(alloc: Global, front: &[u8], back: &[u8]) -> Result<Vec<u8>, CommandFault>
    ensures ok { IfOk result (λ all. vec_items all ≡ front.now ++ back.now) }
    ensures err { IfErr result (λ refusal. refusal ≡ NoMemory) }
{
    let Ok(mut all) = Vec::from_slice(alloc, front) else {
        return Err(CommandFault::NoMemory);
    };
    match all.extend_from_slice(back) {
        Ok(()) => Ok(all),
        Err(_) => Err(CommandFault::NoMemory),
    }
}

/// The file that a host's file holds. `File` for a T64 with no program, or with several.
fn held(alloc: Global, bytes: &[u8]) -> Result<Vec<u8>, CommandFault>
    ensures ok { IfOk result (λ file. file_in bytes.now ≡ Some (vec_items file)) }
    ensures err { IfErr result (λ refusal. (refusal ≡ NoMemory) ⊎ (refusal ≡ File)) }
{
    match parts_of(bytes) {
        Some((front, back)) => joined(alloc, front, back),
        None => Err(CommandFault::File),
    }
}

/// The file that the file at a path holds, or that of standard input.
pub(crate) fn file_at<R>(rt: &R, path: &str) -> Result<Vec<u8>, CommandFault>
where
    R: HostFiles + Input + AllocGlobal,
    requires { MayReadText R.rights rt.now path.now }
    ensures read { OfText R.stands rt.now path.now (λ all. IfOk result (λ file. file_in all ≡ Some (vec_items file))) }
    ensures err { IfErr result IsUnread }
{
    let bytes = script_to_play(rt, path)?;
    held(rt.alloc(), bytes.as_slice())
}
