//! A CVT taken apart.
ghost use Rattle.std.specs.Prelude.{◌≡◌, ◌≤◌, ◌<◌, ◌*◌, IfSome, IsTrue, None, Some, if◌then◌else◌, length, option_map, slice_range};
ghost use Rattle.disk_changes.specs.Cvts as cvts;

use geos_files::cvt_signature;

/// How many records a file has.
const RECORDS: usize = 127;

/// Where the signature is, after the entry from its type on.
const SIGNATURE: usize = 30;

/// Where the info block begins.
const INFO: usize = 254;

/// Where the bytes for the records begin.
const PAIRS: usize = 508;

/// Whether the file has records.
fn has_records(bytes: &[u8]) -> bool
    requires { 508 < length bytes.now }
    ensures { result ≡ cvts.has_records bytes.now }
{
    bytes[21] == 1
}

/// How many blocks all records have.
#[tactic(auto, unfolding(crate::specs::Cvts::record_blocks))]
fn record_blocks(bytes: &[u8]) -> usize
    requires { 762 ≤ length bytes.now }
    ensures value { result ≡ cvts.record_blocks bytes.now 127 }
    ensures few { result ≤ 255 * 127 }
{
    let mut blocks = 0;
    for number in 0..RECORDS {
        blocks += bytes[PAIRS + 2 * number] as usize;
    }
    blocks
}

/// The index of the last byte of the last record that has a block. 255 if none has one.
#[tactic(auto, unfolding(crate::specs::Cvts::last_index))]
fn last_index(bytes: &[u8]) -> usize
    requires { 762 ≤ length bytes.now }
    ensures value { result ≡ cvts.last_index bytes.now 127 }
    ensures low { result ≤ 255 }
{
    let mut last = 255;
    for number in 0..RECORDS {
        if bytes[PAIRS + 2 * number] != 0 {
            last = bytes[PAIRS + 1 + 2 * number];
        }
    }
    last as usize
}

/// Where the last record ends.
fn records_end(bytes: &[u8]) -> usize
    requires { 762 ≤ length bytes.now }
    ensures value { result ≡ cvts.records_end bytes.now }
    ensures high { 507 ≤ result }
    ensures low { result ≤ 9000000 }
{
    PAIRS - 1 + 254 * record_blocks(bytes) + last_index(bytes)
}

/// Whether records that end there, the last one with this last index, are in so many bytes, and fewer than a block's stand after them.
fn has_all(size: usize, last: usize, end: usize) -> bool
    requires { end ≤ 9000000 }
    ensures value { result ≡ cvts.has_all size last end }
    ensures inside { IsTrue result → end ≤ size }
{
    last >= 2 && (end <= size && size < end + 254)
}

/// What comes after the first 254 bytes, up to the end of the records, if all of it is there.
fn part_to(bytes: &[u8], last: usize, end: usize) -> Option<&[u8]>
    requires high { 507 ≤ end }
    requires low { end ≤ 9000000 }
    ensures { option_map (λ content. content.now) result
        ≡ (if cvts.has_all (length bytes.now) last end then Some (slice_range bytes.now 254 end) else None) }
{
    if has_all(bytes.len(), last, end) {
        Some(&bytes[INFO..end])
    } else {
        None
    }
}

/// What comes after the first 254 bytes of a file with records, if no block is missing.
fn records_content(bytes: &[u8]) -> Option<&[u8]>
    ensures { option_map (λ content. content.now) result ≡ cvts.records_content bytes.now }
{
    if bytes.len() < 762 {
        return None;
    }
    part_to(bytes, last_index(bytes), records_end(bytes))
}

/// What comes after the first 254 bytes of a file with one chain, if no block is missing.
fn chain_content(bytes: &[u8]) -> Option<&[u8]>
    requires { 508 < length bytes.now }
    ensures { option_map (λ content. content.now) result ≡ cvts.chain_content bytes.now }
{
    let counted = usize::from(bytes[28]) + 256 * usize::from(bytes[29]);
    if counted <= 1 + (bytes.len() - PAIRS + 253) / 254 {
        Some(&bytes[INFO..])
    } else {
        None
    }
}

/// Whether they have the signature of a CVT. Some programs write that of a file with records for each file.
fn is_signed(bytes: &[u8]) -> bool
    requires { 508 < length bytes.now }
    ensures { result ≡ cvts.is_signed bytes.now }
{
    let after = &bytes[SIGNATURE..];
    after.starts_with(cvt_signature(true)) || after.starts_with(cvt_signature(false))
}

/// Whether the entry is that of a closed SEQ, PRG or USR, locked or not.
fn has_plain_type(bytes: &[u8]) -> bool
    requires { 508 < length bytes.now }
    ensures { result ≡ cvts.has_plain_type bytes.now }
{
    matches!(bytes[0], 129..=131 | 193..=195)
}

/// Whether GEOS has the structure and the type of the entry.
fn has_geos_type(bytes: &[u8]) -> bool
    requires { 508 < length bytes.now }
    ensures { result ≡ cvts.has_geos_type bytes.now }
{
    bytes[21] <= 1 && (1 <= bytes[22] && bytes[22] <= 15)
}

/// Whether they begin like the CVT of a file of GEOS, and go on after the info block.
fn begins_cvt(bytes: &[u8]) -> bool
    ensures value { result ≡ cvts.begins_cvt bytes.now }
    ensures long { IsTrue result → 508 < length bytes.now }
{
    bytes.len() > PAIRS && (is_signed(bytes) && (has_plain_type(bytes) && has_geos_type(bytes)))
}

/// What comes after the first 254 bytes of a CVT, as it stands on a disk with 254 bytes in each block: the info block, two
/// bytes for each of 127 records if the file has records, and the data. Bytes after the end of the last record aren't of it.
///
/// None if the bytes aren't a whole CVT: they have no signature of one, an entry that no file of GEOS has, fewer blocks than are counted,
/// or a block more than the records count.
pub fn cvt_content(bytes: &[u8]) -> Option<&[u8]>
    ensures value { option_map (λ content. content.now) result ≡ cvts.content_of bytes.now }
    ensures long { IfSome result (λ _. 508 < length bytes.now) }
{
    if !begins_cvt(bytes) {
        return None;
    }
    if has_records(bytes) {
        records_content(bytes)
    } else {
        chain_content(bytes)
    }
}
