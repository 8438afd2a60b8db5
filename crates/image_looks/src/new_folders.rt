//! Folders whose files are gathered in memory. Then they are made under another name, and get their own when all is synced.
ghost use Rattle.std.specs.Prelude.{◌≡◌, IfOk, OnOk, string_bytes};
ghost use Rattle.std.proofs.Props.{props};
ghost use Rattle.file_rescues.specs.rescue.Folders.{StaysInside};
ghost use Rattle.image_file.specs.paths.Rights.{Make};
ghost use Rattle.image_file.specs.paths.Traces.{IsWrittenAt};
ghost use Rattle.image_looks.specs.NewFolders.{AllStayInside, AreMadeAt, AreWrittenIn, IsWhole};
ghost use Rattle.opened_files.specs.Rights.{MayFill, MayTry, aside_of};
ghost use Rattle.opened_files.specs.Rights as specs;

use file_rescues::{MemFile, MemFolder, NewFolder};
use image_file::{EndedFile, HostFiles};
use opened_files::Aside;
use std::alloc::Global;
use std::io;

/// Where a folder is made.
pub trait FolderPlace {
    ghost use Rattle.std.specs.Prelude.{List, OnErr, OnOk, ⊤};
    ghost use Rattle.file_rescues.specs.declared.rescue.mem_folder.MemFile.{MemFile as File};
    ghost use Rattle.image_looks.specs.NewFolders.{AllStayInside};

    // the folder was made there with these files, which stay if power fails
    ghost IsMade: { Self → List File → Type 0 } = { λ _ _. ⊤ };

    // a call for it was refused
    ghost HasFailed: { Self → Type 0 } = { λ _. ⊤ };

    /// Makes the folder with these files, all synced. At an error it isn't there. `AlreadyExists`: something stands in its place.
    fn make(&self, files: &[MemFile]) -> io::Result<()>
        requires inside { AllStayInside files.now }
        ensures made { OnOk result (IsMade self.now files.now) }
        ensures cause { OnErr result (HasFailed self.now) };
}

/// Files for a folder, in memory.
#[derive(Drop)]
pub(crate) struct GatheredFiles {
    files: MemFolder,
    // each can be made in a folder
    ghost inside: { AllStayInside files.files.items } by { Prim.hlevel props },
}

impl GatheredFiles {
    ghost use Rattle.std.specs.Prelude.{[]};

    /// No files.
    pub(crate) fn new(alloc: Global) -> GatheredFiles
        ensures { result.files.files.items ≡ [] }
    {
        GatheredFiles {
            files: MemFolder::new(alloc),
        }
    }

    /// The files, in order.
    pub(crate) fn files(&self) -> &[MemFile]
        ensures { result.now ≡ self.now.files.files.items }
    {
        self.files.files()
    }
}

impl NewFolder for GatheredFiles {
    ghost use Rattle.std.specs.Prelude.{Some};
    ghost use Rattle.file_rescues.specs.rescue.Memory.{files_in};

    ghost files = { λ gathered. Some (files_in gathered.files) };

    fn make(&mut self, name: &[u8], bytes: &[u8]) -> io::Result<()> {
        self.files.make(name, bytes)
    }
}

/// The path of the file of this name in a folder.
fn path_in(alloc: Global, folder: &str, name: &[u8]) -> io::Result<String>
    ensures { IfOk result (λ path. string_bytes path ≡ specs.path_in folder.now name.now) }
{
    let Ok(name) = std::str::from_utf8(name) else {
        return Err(io::ErrorKind::InvalidInput.into());
    };
    let mut path = String::new(alloc);
    path.push_str(folder)?;
    path.push_str("/")?;
    path.push_str(name)?;
    Ok(path)
}

/// A file of a folder that is being filled.
#[derive(Drop)]
struct Inside<'a, R: HostFiles> {
    rt: &'a R,
    path: String,
    ghost may: { MayTry R.rights rt.now (string_bytes path) } by { Prim.hlevel props },
}

impl<R: HostFiles> Inside<'_, R> {
    /// Makes the file.
    fn make(&self) -> io::Result<R::File>
        ensures { IfOk result (λ file. R.traces.opened self.now.rt.now Make (string_bytes self.now.path) file) }
    {
        self.rt.make_file(self.path.as_str(), 0o666)
    }

    /// Takes its name away.
    fn remove(&self) {
        let _ = self.rt.remove(self.path.as_str());
    }

    /// Syncs the names of all files of its folder.
    fn sync_names(&self) -> io::Result<()> {
        self.rt.sync_folder_of(self.path.as_str())
    }
}

/// A folder that was made under another name, and the files that it got.
#[derive(Drop)]
struct FilledFolder<'a, R: HostFiles> {
    aside: Aside<'a, R>,
    files: Vec<Inside<'a, R>>,
    // files may be made in it
    ghost fills: { MayFill R.rights aside.rt.now aside.path.now } by { Prim.hlevel props },
}

impl<'a, R: HostFiles + AllocGlobal> FilledFolder<'a, R> {
    /// A folder that gets this path, at which nothing may stand: `AlreadyExists`.
    fn make(rt: &'a R, path: &'a str) -> io::Result<FilledFolder<'a, R>>
        requires { MayFill R.rights rt.now path.now }
        ensures { IfOk result (λ folder. (folder.aside.rt.now ≡ rt.now) × (folder.aside.path.now ≡ path.now)) }
    {
        let aside = Aside::free(rt, path)?;
        aside.make_folder()?;
        let files = Vec::new(rt.alloc());
        Ok(FilledFolder { aside, files })
    }

    /// The file of this name in it, which isn't made yet.
    fn file(&self, name: &[u8]) -> io::Result<Inside<'a, R>>
        requires { StaysInside name.now }
        ensures { IfOk result (λ inside. (inside.rt.now ≡ self.now.aside.rt.now) × (string_bytes inside.path
            ≡ specs.path_in (aside_of self.now.aside.path.now self.now.aside.end.now) name.now)) }
    {
        let rt = self.aside.runtime();
        let path = path_in(rt.alloc(), self.aside.name(), name)?;
        Ok(Inside { rt, path })
    }

    /// Makes a file of this name in it.
    fn make_file(&mut self, name: &[u8]) -> io::Result<R::File>
        requires { StaysInside name.now }
        ensures same { self.new.aside ≡ self.old.aside }
        ensures made { IfOk result (λ file. R.traces.opened self.old.aside.rt.now Make
            (specs.path_in (aside_of self.old.aside.path.now self.old.aside.end.now) name.now) file) }
    {
        let inside = self.file(name)?;
        // so that it is known when it is there
        self.files.reserve(1)?;
        let file = inside.make()?;
        self.files.push(inside)?;
        Ok(file)
    }
}

/// Writes these bytes into a file that was made, and syncs it.
fn fill<F: EndedFile>(file: &mut F, bytes: &[u8]) -> io::Result<()>
    ensures { OnOk result (IsWhole F.EndedFile.remains file.old file.new bytes.now) }
{
    file.write_over(bytes, 0)?;
    file.sync_whole()
}

impl<F, R> FilledFolder<'_, R>
where
    F: EndedFile + Drop,
    R: HostFiles<File = F> + AllocGlobal,
{
    /// Makes a file of this name with these bytes in it, and syncs that.
    fn add(&mut self, name: &[u8], bytes: &[u8]) -> io::Result<()>
        requires { StaysInside name.now }
        ensures same { self.new.aside ≡ self.old.aside }
        ensures made { OnOk result (IsWrittenAt F.EndedFile.remains R.traces self.old.aside.rt.now
            (specs.path_in (aside_of self.old.aside.path.now self.old.aside.end.now) name.now) bytes.now) }
    {
        let mut file = self.make_file(name)?;
        fill(&mut file, bytes)
    }

    /// Makes these files in it.
    fn add_all(&mut self, files: &[MemFile]) -> io::Result<()>
        requires { AllStayInside files.now }
        ensures same { self.new.aside ≡ self.old.aside }
        ensures made { OnOk result (AreWrittenIn F.EndedFile.remains R.traces self.old.aside.rt.now
            (aside_of self.old.aside.path.now self.old.aside.end.now) files.now) }
    {
        for file in files {
            self.add(file.name.as_slice(), file.bytes.as_slice())?;
        }
        Ok(())
    }

    /// Makes these files in it, syncs their names, and gives it its path.
    fn make_whole(&mut self, files: &[MemFile]) -> io::Result<()>
        requires { AllStayInside files.now }
        ensures { OnOk result (AreMadeAt F.EndedFile.remains R.traces self.old.aside.rt.now self.old.aside.path.now files.now) }
    {
        self.add_all(files)?;
        self.keep()
    }
}

impl<R: HostFiles> FilledFolder<'_, R> {
    /// Syncs the names of its files, and gives it its path.
    fn keep(&self) -> io::Result<()>
        ensures { OnOk result (R.traces.moved self.now.aside.rt.now
            (aside_of self.now.aside.path.now self.now.aside.end.now) self.now.aside.path.now) }
    {
        if let Some(file) = self.files.as_slice().last() {
            file.sync_names()?;
        }
        self.aside.give_path()
    }

    /// Removes the files that were made in it, and the folder, if it is empty then.
    fn remove(&self) {
        for file in self.files.as_slice() {
            file.remove();
        }
        self.aside.remove_folder();
    }
}

/// The place of a folder of the system.
#[derive(Drop)]
pub(crate) struct SystemFolder<'a, R: HostFiles> {
    rt: &'a R,
    path: &'a str,
    // it may be made, and files in it
    ghost fills: { MayFill R.rights rt.now path.now } by { Prim.hlevel props },
}

impl<'a, R: HostFiles> SystemFolder<'a, R> {
    /// The place at this path.
    pub(crate) fn new(rt: &'a R, path: &'a str) -> SystemFolder<'a, R>
        requires { MayFill R.rights rt.now path.now }
        ensures rt { result.rt.now ≡ rt.now }
        ensures path { result.path.now ≡ path.now }
    {
        SystemFolder { rt, path }
    }
}

impl<F, R> FolderPlace for SystemFolder<'_, R>
where
    F: EndedFile + Drop,
    R: HostFiles<File = F> + AllocGlobal,
{
    ghost use Rattle.image_looks.specs.NewFolders.{AreMadeAt};

    ghost IsMade = { λ place files. AreMadeAt F.EndedFile.remains R.traces place.rt.now place.path.now files };

    // what was made is removed if that fails
    fn make(&self, files: &[MemFile]) -> io::Result<()> {
        let mut folder = FilledFolder::make(self.rt, self.path)?;
        let made = folder.make_whole(files);
        if made.is_err() {
            folder.remove();
        }
        made
    }
}
