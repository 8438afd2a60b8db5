//! A log's file in memory.
ghost use Rattle.std.specs.Prelude.{◌≡◌, ◌≤◌, ◌∷◌, OnErr, OnOk, false, length};
ghost use Rattle.image_log.specs.Files.{overwritten};
ghost use Rattle.image_log.specs.MemCalls.{seen_after};
ghost use Rattle.std.proofs.Props.{props};

use crate::log_file::LogFile;
use std::alloc::Global;
use std::io;

/// A call on the file.
#[derive(Drop)]
pub enum MemCall {
    /// These bytes were written from that place on.
    Write(usize, Vec<u8>),
    /// The file was synced.
    Sync,
}

/// A file in memory, which keeps each call, so that all that a power loss may leave is known. It fails if memory is
/// refused, and at a write that begins after its end or goes past it. From then on each call fails.
#[derive(Drop)]
pub struct MemLog {
    alloc: Global,
    bytes: Vec<u8>,
    // what it held at first
    first: Vec<u8>,
    // the newest first
    calls: Vec<MemCall>,
    failed: bool,
    ghost seen: { failed ≡ false → bytes.items ≡ seen_after first.items calls.items } by { Prim.hlevel props },
}

impl MemLog {
    ghost use Rattle.std.specs.Prelude.{[], IfOk};
    ghost use Rattle.image_log.specs.Files.{Rests};
    ghost use Rattle.image_log.specs.Memory.{mem_bytes, memory};

    /// An empty file.
    pub fn new(alloc: Global) -> MemLog
        ensures bytes { mem_bytes result ≡ [] }
        ensures unfailed { memory.has_failed result ≡ false }
    {
        MemLog {
            alloc,
            bytes: Vec::new(alloc),
            first: Vec::new(alloc),
            calls: Vec::new(alloc),
            failed: false,
        }
    }

    /// A file with these bytes, at rest. Err if memory is refused.
    pub fn of(alloc: Global, bytes: &[u8]) -> io::Result<MemLog>
        ensures rests { IfOk result (λ file. Rests memory file bytes.now) }
        ensures moment { IfOk result (λ file. memory.moment file ≡ 0) }
        ensures unfailed { IfOk result (λ file. memory.has_failed file ≡ false) }
    {
        let Ok(first) = Vec::from_slice(alloc, bytes) else {
            return Err(io::ErrorKind::OutOfMemory.into());
        };
        let Ok(bytes) = Vec::from_slice(alloc, bytes) else {
            return Err(io::ErrorKind::OutOfMemory.into());
        };
        Ok(MemLog {
            alloc,
            bytes,
            first,
            calls: Vec::new(alloc),
            failed: false,
        })
    }

    /// Whether a call failed: from then on each one does.
    pub fn is_failed(&self) -> bool
        ensures { result ≡ memory.has_failed self.now }
    {
        self.failed
    }

    /// The bytes that it holds.
    pub fn bytes(&self) -> &[u8]
        ensures { result.now ≡ mem_bytes self.now }
    {
        self.bytes.as_slice()
    }

    /// How many calls it has kept.
    pub fn calls(&self) -> usize
        ensures { result ≡ memory.moment self.now }
    {
        self.calls.len()
    }
}

/// Keeps a call.
fn note(calls: &mut Vec<MemCall>, call: MemCall) -> io::Result<()>
    ensures ok { OnOk result (calls.new.items ≡ call ∷ calls.old.items) }
    ensures err { OnErr result (calls.new.items ≡ calls.old.items) }
{
    match calls.insert(0, call) {
        Ok(()) => Ok(()),
        Err(_) => Err(io::ErrorKind::OutOfMemory.into()),
    }
}

impl LogFile for MemLog {
    ghost use Rattle.image_log.specs.Files.{Lengthens, SyncsBytes, WritesBytes};
    ghost use Rattle.image_log.specs.Memory.{mem_bytes, memory};

    ghost history = { memory };

    fn write_at(&mut self, at: usize, bytes: &[u8]) -> io::Result<()>
        ensures written { WritesBytes memory self.old self.new at bytes.now result }
        // after its end nothing is written: no hole is left
        ensures within { OnOk result (at ≤ length (mem_bytes self.old)) }
    {
        let was_failed = self.failed;
        self.failed = true;
        if was_failed {
            return Err(io::ErrorKind::Other.into());
        }
        let Ok(kept) = Vec::from_slice(self.alloc, bytes) else {
            return Err(io::ErrorKind::OutOfMemory.into());
        };
        note(&mut self.calls, MemCall::Write(at, kept))?;
        overwrite(&mut self.bytes, at, bytes)?;
        self.failed = false;
        Ok(())
    }

    fn lengthen(&mut self, size: usize) -> io::Result<()>
        ensures { Lengthens memory self.old self.new size result }
    {
        let mut zeros = Vec::new(self.alloc);
        if zeros.resize(size, 0).is_err() {
            self.failed = true;
            return Err(io::ErrorKind::OutOfMemory.into());
        }
        self.write_at(0, zeros.as_slice())
    }

    fn sync(&mut self) -> io::Result<()>
        ensures { SyncsBytes memory self.old self.new result }
    {
        if self.failed {
            return Err(io::ErrorKind::Other.into());
        }
        self.failed = true;
        note(&mut self.calls, MemCall::Sync)?;
        self.failed = false;
        Ok(())
    }
}

/// Writes bytes over those from that place on, or after the last one.
fn overwrite(file: &mut Vec<u8>, at: usize, bytes: &[u8]) -> io::Result<()>
    ensures ok { OnOk result (file.new.items ≡ overwritten file.old.items at bytes.now) }
    ensures within { OnOk result (at ≤ length file.old.items) }
{
    let len = file.len();
    if at <= len && bytes.len() <= len - at {
        file[at..at + bytes.len()].copy_from_slice(bytes);
        return Ok(());
    }
    if at != len {
        return Err(io::ErrorKind::InvalidInput.into());
    }
    match file.extend_from_slice(bytes) {
        Ok(()) => Ok(()),
        Err(_) => Err(io::ErrorKind::OutOfMemory.into()),
    }
}
