//! Files and folders that are made under another name, and get their own when they are whole.
ghost use Rattle.std.specs.Prelude.{◌≡◌, IfOk, OnOk, string_bytes};
ghost use Rattle.std.proofs.Props.{props};
ghost use Rattle.image_file.specs.paths.Rights.{Look, Make, May};
ghost use Rattle.opened_files.specs.Rights.{MayLookAside, MayMakeNew, aside_of};

use crate::files::metadata_of;
use crate::image_logs::is_there;
use image_file::{HostFiles, Identity, leads_to};
use std::alloc::Global;
use std::fs::OpenFile;
use std::io;

/// What such a name may end with after `.new`. One that is taken may be that of a run that was killed, and stays.
const ENDS: [&str; 10] = ["", "1", "2", "3", "4", "5", "6", "7", "8", "9"];

/// The name under which a file or a folder is made that gets this path.
#[derive(Drop)]
pub struct Aside<'a, R: HostFiles> {
    pub(crate) rt: &'a R,
    pub(crate) path: &'a str,
    end: &'a str,
    name: String,
    ghost is: { string_bytes name ≡ aside_of path.now end.now },
    // what gets this path may be made
    ghost may: { MayMakeNew R.rights rt.now path.now } by { Prim.hlevel props },
}

/// A path with `.new` and this end after it.
fn aside_name(alloc: Global, path: &str, end: &str) -> io::Result<String>
    ensures { IfOk result (λ name. string_bytes name ≡ aside_of path.now end.now) }
{
    let mut name = String::new(alloc);
    name.push_str(path)?;
    name.push_str(".new")?;
    name.push_str(end)?;
    Ok(name)
}

/// Whether something has this name, as far as the host says.
fn is_taken<R: HostFiles>(rt: &R, name: &str) -> bool
    requires { May R.rights rt.now Look name.now }
{
    is_there(rt, name).unwrap_or(false)
}

/// Whether all ten names are taken under which what gets this path could be made: by runs that were killed, or that go on. The path
/// itself is one at which something may be made.
pub fn has_no_aside<R: HostFiles + AllocGlobal>(rt: &R, path: &str) -> bool
    requires { MayLookAside R.rights rt.now path.now }
{
    for end in ENDS {
        let Ok(name) = aside_name(rt.alloc(), path, end) else {
            return false;
        };
        if !is_taken(rt, name.as_str()) {
            return false;
        }
    }
    true
}

/// The name of what was made for this path, if the file at the path still has that name, too: a run was killed before it took the
/// name away.
pub fn second_aside<R: HostFiles + AllocGlobal>(rt: &R, path: &str) -> Option<String>
    requires { MayLookAside R.rights rt.now path.now }
{
    let found = metadata_of(rt, path)?;
    for end in ENDS {
        let name = aside_name(rt.alloc(), path, end).ok()?;
        if leads_to(rt, name.as_str(), Identity::sized(&found, found.len())) {
            return Some(name);
        }
    }
    None
}

impl<'a, R: HostFiles + AllocGlobal> Aside<'a, R> {
    /// The name with this end, for what gets this path.
    fn of(rt: &'a R, path: &'a str, end: &'a str) -> io::Result<Aside<'a, R>>
        requires { MayMakeNew R.rights rt.now path.now }
        ensures { IfOk result (λ aside. (aside.rt.now ≡ rt.now) × (aside.path.now ≡ path.now)) }
    {
        let name = aside_name(rt.alloc(), path, end)?;
        Ok(Aside {
            rt,
            path,
            end,
            name,
        })
    }

    /// The first name that is free, for what gets this path. `AlreadyExists` if ten are taken, or if anything stands at the
    /// path.
    pub fn free(rt: &'a R, path: &'a str) -> io::Result<Aside<'a, R>>
        requires { MayMakeNew R.rights rt.now path.now }
        ensures { IfOk result (λ aside. (aside.rt.now ≡ rt.now) × (aside.path.now ≡ path.now)) }
    {
        if is_there(rt, path)? {
            return Err(io::ErrorKind::AlreadyExists.into());
        }
        for end in ENDS {
            let aside = Aside::of(rt, path, end)?;
            if !is_there(rt, aside.name.as_str())? {
                return Ok(aside);
            }
        }
        Err(io::ErrorKind::AlreadyExists.into())
    }
}

impl<'a, R: HostFiles> Aside<'a, R> {
    /// The runtime.
    pub fn runtime(&self) -> &'a R
        ensures { result.now ≡ self.now.rt.now }
    {
        self.rt
    }

    /// The name.
    pub fn name(&self) -> &str
        ensures { result.now ≡ aside_of self.now.path.now self.now.end.now }
    {
        self.name.as_str()
    }

    /// Makes a file of this name, open to be written.
    pub(crate) fn make_file(&self, mode: u32) -> io::Result<R::File>
        ensures { IfOk result (λ file. R.traces.opened self.now.rt.now Make
            (aside_of self.now.path.now self.now.end.now) file) }
    {
        self.rt.make_file(self.name.as_str(), mode)
    }

    /// Makes a folder of this name.
    pub fn make_folder(&self) -> io::Result<()> {
        self.rt.make_folder(self.name.as_str())
    }

    /// Takes the name of the folder away, if that is empty. At an error it stays.
    pub fn remove_folder(&self) {
        let _ = self.rt.remove_folder(self.name.as_str());
    }

    /// Gives what has the name its own path, at which nothing may stand: `AlreadyExists`; and syncs that.
    pub fn give_path(&self) -> io::Result<()>
        ensures { OnOk result (R.traces.moved self.now.rt.now (aside_of self.now.path.now self.now.end.now)
            self.now.path.now) }
    {
        self.rt.give_free_name(self.name.as_str(), self.path)?;
        self.rt.sync_folder_of(self.path)
    }

    /// Takes the name away, if it is this file's. At an error it stays.
    pub(crate) fn remove_file<F: OpenFile>(&self, file: &F) {
        let Ok(found) = OpenFile::metadata(file) else {
            return;
        };
        if leads_to(
            self.rt,
            self.name.as_str(),
            Identity::sized(&found, found.len()),
        ) {
            let _ = self.rt.remove(self.name.as_str());
        }
    }
}
