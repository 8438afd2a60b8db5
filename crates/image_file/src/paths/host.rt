//! The files of a host, by their paths.
ghost use Rattle.std.specs.Prelude.{◌≡◌, Bool, IfOk, IsErr, List, OnOk, ℕ, false, string_bytes, true};
ghost use Rattle.image_file.specs.paths.Rights.{Look, Make, May, Read as ToRead, Remove, Replace, Rights, Use, Write as ToWrite};
ghost use Rattle.image_file.specs.paths.Standing.{AreOf, IsMissing, Stands, Unsaid};
ghost use Rattle.image_file.specs.paths.Traces.{Traces, untraced};

use std::alloc::Global;
use std::fs::{Metadata, OpenFile};
use std::io::{self, Read, Seek};

/// The files of a host. Each call says what it does with the file at a path, and needs the right to do that. So code that
/// is proved over any host does nothing with a file but what its own contract has rights for.
pub trait HostFiles {
    /// An open file.
    type File: Read + Seek + OpenFile + Drop;

    // what may be done with its files
    ghost rights: { Rights Self };

    // what stands at its paths, if it says that
    ghost stands: { Self → List ℕ → Stands } = { λ _ _. Unsaid };

    // what it says of calls that were made, if it says that
    ghost traces: { Traces Self Self.File } = { untraced };

    /// What stands at a path.
    fn look_at(&self, path: &str) -> io::Result<Metadata>
        requires { May rights self.now Look path.now }
        ensures missing { IsMissing stands self.now path.now → IsErr result }
        ensures seen { IfOk result (traces.seen self.now path.now) };

    /// Whether anything has this path as its name, also a symbolic link that leads nowhere.
    fn is_named(&self, path: &str) -> io::Result<bool>
        requires { May rights self.now Look path.now }
        ensures { IsMissing stands self.now path.now → IfOk result (λ named. named ≡ false) };

    /// The path of the file to which a path leads. It is the path itself if there is no file, or if the host doesn't know.
    fn resolve(&self, alloc: Global, path: &str) -> io::Result<String>
        requires { May rights self.now Look path.now }
        ensures { IfOk result (λ found. rights.leads self.now path.now (string_bytes found) ≡ true) };

    /// Syncs the names in the folder of the file at a path.
    fn sync_folder_of(&self, path: &str) -> io::Result<()>
        requires { May rights self.now Look path.now }
        ensures { OnOk result (traces.synced self.now path.now) };

    /// Opens the file at a path to read it.
    fn open_to_read(&self, path: &str) -> io::Result<Self::File>
        requires { May rights self.now ToRead path.now }
        ensures missing { IsMissing stands self.now path.now → IsErr result }
        ensures bytes { IfOk result (λ file. AreOf stands self.now path.now (Self.File.Read.remaining file)) }
        ensures opened { IfOk result (λ file. traces.opened self.now ToRead path.now file) };

    /// Opens the file at a path to read and write it. It is neither made nor cut.
    fn open_to_change(&self, path: &str) -> io::Result<Self::File>
        requires { May rights self.now ToWrite path.now }
        ensures missing { IsMissing stands self.now path.now → IsErr result }
        ensures bytes { IfOk result (λ file. AreOf stands self.now path.now (Self.File.Read.remaining file)) }
        ensures opened { IfOk result (λ file. traces.opened self.now ToWrite path.now file) };

    /// Refuses the file at a path if it can't be opened as `open_to_change` opens it, with the error of that call. The file is
    /// closed again, and nothing of it is read or written.
    fn see_writable(&self, path: &str) -> io::Result<()>
        requires { May rights self.now Look path.now }
        ensures { IsMissing stands self.now path.now → IsErr result };

    /// Opens the file at a path to write it; it needn't be readable. It is neither made nor cut.
    fn open_to_write(&self, path: &str) -> io::Result<Self::File>
        requires { May rights self.now ToWrite path.now }
        ensures { IfOk result (λ file. traces.opened self.now ToWrite path.now file) };

    /// Makes a file at a path, open to be written, with these of the bits of its mode that the host lets a file have.
    /// `AlreadyExists` if anything stands there.
    fn make_file(&self, path: &str, mode: u32) -> io::Result<Self::File>
        requires { May rights self.now Make path.now }
        ensures { IfOk result (λ file. traces.opened self.now Make path.now file) };

    /// Gives the file or the folder at a path another name, at which nothing may stand: `AlreadyExists`. A host that gives no
    /// file two names, and each for a folder, first looks whether anything stands there: a file that comes there between the
    /// look and the call is lost then.
    fn give_free_name(&self, from: &str, to: &str) -> io::Result<()>
        requires from { May rights self.now Remove from.now }
        requires look { May rights self.now Look to.now }
        requires to { May rights self.now Make to.now }
        ensures { OnOk result (traces.moved self.now from.now to.now) };

    /// Takes the name of the empty folder at a path away.
    fn remove_folder(&self, path: &str) -> io::Result<()>
        requires { May rights self.now Remove path.now }
        ensures { OnOk result (traces.removed self.now path.now) };

    /// Whether the file at a path is mounted there by itself, so that other programs have other files beside it. False if the
    /// host doesn't say.
    fn is_mounted(&self, alloc: Global, path: &str) -> io::Result<bool>
        requires { May rights self.now Look path.now };

    /// Makes a folder at a path. `AlreadyExists` if anything stands there.
    fn make_folder(&self, path: &str) -> io::Result<()>
        requires { May rights self.now Make path.now }
        ensures { OnOk result (traces.made self.now path.now) };

    /// Gives the file at a path another name, in the place of the file that had it.
    fn rename(&self, from: &str, to: &str) -> io::Result<()>
        requires from { May rights self.now Remove from.now }
        requires to { May rights self.now Replace to.now }
        ensures { OnOk result (traces.renamed self.now from.now to.now) };

    /// Takes the name of the file at a path away.
    fn remove(&self, path: &str) -> io::Result<()>
        requires { May rights self.now Remove path.now }
        ensures { OnOk result (traces.removed self.now path.now) };
}

/// A host whose images and logs are its files, of which it says nothing but what each call says.
pub trait PlainFiles: HostFiles {}
