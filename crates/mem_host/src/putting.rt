//! The bytes of a file after a change.
ghost use Rattle.std.specs.Prelude.{◌≡◌, ◌≤◌, IfOk, drop, length, take};
ghost use Rattle.one_host.specs.Calls.{ended, put};

use std::alloc::{AllocError, Global};

/// These bytes from a place on, over what was there. Zeros fill what was missing.
pub(crate) fn put_over(
    alloc: Global,
    old: &[u8],
    at: usize,
    bytes: &[u8],
) -> Result<Vec<u8>, AllocError>
    ensures { IfOk result (λ all. all.items ≡ put old.now at bytes.now) }
{
    let mut all = ended_at(alloc, old, at)?;
    all.extend_from_slice(bytes)?;
    if at < old.len() && bytes.len() < old.len() - at {
        all.extend_from_slice(&old[at + bytes.len()..])?;
    }
    Ok(all)
}

/// The first bytes. Zeros fill what is missing.
pub(crate) fn ended_at(alloc: Global, old: &[u8], size: usize) -> Result<Vec<u8>, AllocError>
    ensures { IfOk result (λ all. all.items ≡ ended old.now size) }
{
    if size <= old.len() {
        return old[..size].to_vec(alloc);
    }
    let mut all = old.to_vec(alloc)?;
    all.resize(size, 0)?;
    Ok(all)
}

/// Copies bytes from a place on, as far as there are any, and says how many.
pub(crate) fn copy_from(bytes: &[u8], at: usize, to: &mut [u8]) -> usize
    ensures within { result ≤ length to.new }
    ensures sized { length to.new ≡ length to.old }
    ensures copied { take result to.new ≡ take (length to.old) (drop at bytes.now) }
{
    if at >= bytes.len() {
        return 0;
    }
    let rest = &bytes[at..];
    let count = rest.len().min(to.len());
    to[..count].copy_from_slice(&rest[..count]);
    count
}
