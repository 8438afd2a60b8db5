//! Files in memory, by their paths.
ghost use Rattle.std.specs.Prelude.{◌≡◌, ◌≤◌, length};

use std::alloc::Global;
use std::cell::Cell;
use std::io::{self, ErrorKind};

/// A file, or a folder, that stands at a path. One whose name was taken away has the path of no file.
#[derive(Drop)]
struct Stored {
    path: String,
    bytes: Vec<u8>,
}

/// Files in memory. No contract knows what they hold.
#[derive(Drop)]
pub struct Store {
    alloc: Global,
    files: Cell<Vec<Stored>>,
}

/// The number of the file at a path.
fn position(files: &[Stored], path: &str) -> Option<usize> {
    for (number, file) in files.iter().enumerate() {
        if file.path.as_str() == path {
            return Some(number);
        }
    }
    None
}

/// Fills a buffer with a file's bytes from there on. Returns how many there were.
fn read_from(files: &[Stored], number: usize, at: usize, buf: &mut [u8]) -> usize
    ensures few { result ≤ length buf.new }
    ensures same { length buf.new ≡ length buf.old }
{
    let Some(file) = files.get(number) else {
        return 0;
    };
    let bytes = file.bytes.as_slice();
    let from = at.min(bytes.len());
    let count = (bytes.len() - from).min(buf.len());
    buf[..count].copy_from_slice(&bytes[from..from + count]);
    count
}

/// Puts bytes over those of a file from there on; zeros fill what was missing before them.
fn write_over(file: &mut Vec<u8>, at: usize, bytes: &[u8]) -> io::Result<()> {
    let Some(end) = at.checked_add(bytes.len()) else {
        return Err(ErrorKind::FileTooLarge.into());
    };
    if file.len() < end {
        file.resize(end, 0)?;
    }
    file[at..end].copy_from_slice(bytes);
    Ok(())
}

/// The path that a file gets when a file or a folder gets another; None if it keeps its own.
fn moved(alloc: Global, path: &str, from: &str, to: &str) -> io::Result<Option<String>> {
    let Some(rest) = path.strip_prefix(from) else {
        return Ok(None);
    };
    if !rest.is_empty() && !rest.starts_with('/') {
        return Ok(None);
    }
    let mut name = String::new(alloc);
    name.push_str(to)?;
    name.push_str(rest)?;
    Ok(Some(name))
}

/// Gives a file or a folder, and what stands in it, another path.
fn move_all(alloc: Global, files: &mut [Stored], from: &str, to: &str) -> io::Result<()> {
    for file in files {
        if let Some(path) = moved(alloc, file.path.as_str(), from, to)? {
            file.path = path;
        }
    }
    Ok(())
}

impl Store {
    /// A store without files.
    pub fn new(alloc: Global) -> Store {
        Store {
            alloc,
            files: Cell::new(Vec::new(alloc)),
        }
    }

    /// The files, which are put back.
    fn taken(&self) -> Vec<Stored> {
        self.files.replace(Vec::new(self.alloc))
    }

    /// The number of the file at a path.
    pub(crate) fn number_of(&self, path: &str) -> Option<usize> {
        let files = self.taken();
        let number = position(files.as_slice(), path);
        self.files.set(files);
        number
    }

    /// How many bytes a file has.
    pub(crate) fn size_of(&self, number: usize) -> usize {
        let files = self.taken();
        let size = files.get(number).map_or(0, |file| file.bytes.len());
        self.files.set(files);
        size
    }

    /// Fills a buffer with a file's bytes from there on. Returns how many there were.
    pub(crate) fn read_at(&self, number: usize, at: usize, buf: &mut [u8]) -> usize
        ensures few { result ≤ length buf.new }
    {
        let files = self.taken();
        let count = read_from(files.as_slice(), number, at, buf);
        self.files.set(files);
        count
    }

    /// Puts bytes over those of a file from there on.
    pub(crate) fn write_at(&self, number: usize, at: usize, bytes: &[u8]) -> io::Result<()> {
        let mut files = self.taken();
        let written = match files.get_mut(number) {
            Some(file) => write_over(&mut file.bytes, at, bytes),
            None => Err(ErrorKind::NotFound.into()),
        };
        self.files.set(files);
        written
    }

    /// Gives a file this length.
    pub(crate) fn resize(&self, number: usize, size: usize) -> io::Result<()> {
        let mut files = self.taken();
        let resized = match files.get_mut(number) {
            Some(file) => file.bytes.resize(size, 0).map_err(io::Error::from),
            None => Err(ErrorKind::NotFound.into()),
        };
        self.files.set(files);
        resized
    }

    /// Puts a file with these bytes at a path, at which there is none. Returns its number.
    pub fn add(&self, path: &str, bytes: &[u8]) -> io::Result<usize> {
        let mut name = String::new(self.alloc);
        name.push_str(path)?;
        let file = Stored {
            path: name,
            bytes: bytes.to_vec(self.alloc)?,
        };
        let mut files = self.taken();
        let number = files.len();
        let added = files.push(file);
        self.files.set(files);
        added?;
        Ok(number)
    }

    /// Gives a file or a folder, and what stands in it, another path.
    pub(crate) fn rename(&self, from: &str, to: &str) -> io::Result<()> {
        let mut files = self.taken();
        let moved = move_all(self.alloc, files.as_mut_slice(), from, to);
        self.files.set(files);
        moved
    }

    /// The bytes of the file at a path.
    pub fn bytes_of(&self, path: &str) -> io::Result<Option<Vec<u8>>> {
        let Some(number) = self.number_of(path) else {
            return Ok(None);
        };
        let mut bytes = Vec::new(self.alloc);
        bytes.resize(self.size_of(number), 0)?;
        let _ = self.read_at(number, 0, bytes.as_mut_slice());
        Ok(Some(bytes))
    }
}
