//! Empty records, written into data blocks.
ghost use Rattle.std.specs.Prelude.{◌≡◌, ◌≢◌, ℕ, ◌+◌, ◌-◌, ◌*◌, ◌<◌, ◌≤◌, slice_index};
ghost use Rattle.disk_layout.specs.Records.{filler};

/// How many bytes of data a block has, after the two of its link.
pub const DATA: usize = 254;

/// Begins the records from `begin` to below `end`, counted from 0, of `size` bytes each, with FF as the first byte of
/// each.
fn start_records(bytes: &mut [u8; 256], at: u32, size: u32, begin: u32, end: u32)
    requires size { size ≤ 255 }
    requires end { end ≤ 1000000 }
    requires inside { (r : ℕ) → begin ≤ r → r < end → (at ≤ r * size) × (r * size < at + 254) }
    ensures begun { (r : ℕ) → begin ≤ r → r < end → slice_index bytes.new (2 + (r * size - at)) ≡ 255 }
    ensures rest { (k : ℕ) → ((r : ℕ) → begin ≤ r → r < end → k ≢ 2 + (r * size - at))
        → slice_index bytes.new k ≡ slice_index bytes.old k }
{
    for record in begin..end {
        bytes[2 + (record * size - at) as usize] = 0xFF;
    }
}

/// Writes empty records into a data block. `at` is the index of the block's first data byte in a file's joined data;
/// bytes 2 to 255 hold the 254 bytes from there on. From index `from` on each of them becomes FF if one of the first
/// `total` records of `length` bytes begins there, and otherwise 00. The bytes before, and the link in bytes 0-1, stay.
pub fn fill(bytes: &mut [u8; 256], at: u32, from: u32, length: u8, total: u32)
    requires at { at ≤ 1000000 }
    requires total { total ≤ 1000000 }
    requires length { 0 < length }
    ensures filled { (j : ℕ) → j < 254 → from ≤ at + j → slice_index bytes.new (2 + j) ≡ filler length total (at + j) }
    ensures kept { (j : ℕ) → j < 254 → at + j < from → slice_index bytes.new (2 + j) ≡ slice_index bytes.old (2 + j) }
    ensures link { (j : ℕ) → j < 2 → slice_index bytes.new j ≡ slice_index bytes.old j }
{
    let size = length as u32;
    let first = from.max(at).min(at + DATA as u32);
    bytes[2 + (first - at) as usize..].fill(0);
    let begin = first.div_ceil(size);
    let end = (at + DATA as u32).div_ceil(size).min(total);
    start_records(bytes, at, size, begin, end);
}
