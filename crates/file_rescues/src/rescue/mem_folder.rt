//! A folder in memory.
ghost use Rattle.std.specs.Prelude.{◌≡◌, ◌↔◌, IfOk, IsTrue, Some, slice_get, vec_items, ℕ};
ghost use Rattle.file_rescues.specs.rescue.Folders.{new_file};
ghost use Rattle.file_rescues.specs.declared.rescue.mem_folder.MemFile.{MemFile};
ghost use Rattle.file_rescues.specs.rescue.Memory.{file_in};

use crate::rescue::folders::NewFolder;
use std::alloc::Global;
use std::io;

/// A file in memory.
#[derive(Drop)]
pub struct MemFile {
    /// Its name.
    pub name: Vec<u8>,
    /// Its bytes.
    pub bytes: Vec<u8>,
}

/// A folder in memory. It refuses a file whose name it has, and fails if memory is refused; nothing is made then.
#[derive(Drop)]
pub struct MemFolder {
    alloc: Global,
    files: Vec<MemFile>,
}

impl MemFolder {
    ghost use Rattle.std.specs.Prelude.{[]};

    /// A folder without files.
    pub fn new(alloc: Global) -> MemFolder
        ensures { result.files.items ≡ [] }
    {
        MemFolder {
            alloc,
            files: Vec::new(alloc),
        }
    }

    /// The files that it got, in order.
    pub fn files(&self) -> &[MemFile]
        ensures { result.now ≡ self.now.files.items }
    {
        self.files.as_slice()
    }
}

/// Whether one of these files has this name.
fn has(files: &[MemFile], name: &[u8]) -> bool
    ensures { IsTrue result ↔ ((k : ℕ) × (file : MemFile) × (slice_get files.now k ≡ Some file)
        × (vec_items file.name ≡ name.now)) }
{
    for file in files {
        if file.name.as_slice() == name {
            return true;
        }
    }
    false
}

/// A file of this name with these bytes. `OutOfMemory` if memory is refused.
fn file_of(alloc: Global, name: &[u8], bytes: &[u8]) -> io::Result<MemFile>
    ensures { IfOk result (λ file. file_in file ≡ new_file name.now bytes.now) }
{
    let name = Vec::from_slice(alloc, name)?;
    let bytes = Vec::from_slice(alloc, bytes)?;
    Ok(MemFile { name, bytes })
}

impl NewFolder for MemFolder {
    ghost use Rattle.file_rescues.specs.rescue.Memory.{files_in};

    ghost files = { λ folder. Some (files_in folder) };

    fn make(&mut self, name: &[u8], bytes: &[u8]) -> io::Result<()> {
        if has(self.files.as_slice(), name) {
            return Err(io::ErrorKind::AlreadyExists.into());
        }
        let file = file_of(self.alloc, name, bytes)?;
        if self.files.push(file).is_err() {
            return Err(io::ErrorKind::OutOfMemory.into());
        }
        Ok(())
    }
}
