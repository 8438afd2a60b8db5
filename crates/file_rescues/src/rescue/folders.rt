//! Folders in which files are made.
ghost use Rattle.std.specs.Prelude.{None, OnErr, OnOk, Option, List, [], ◌∷◌};
ghost use Rattle.file_rescues.specs.rescue.Folders.{AddsFiles, AddsPart, LacksName, NewFile, StaysInside, new_file};

use std::io;

/// A folder that was new, and in which files are made. Nothing else of it is asked, so nothing outside it is made or
/// changed.
pub trait NewFolder {
    /// The files that it got, in order, if they are known.
    ghost files: { Self → Option (List NewFile) } = { λ _. None };

    /// Makes a file of this name, in ASCII, with these bytes. A file of this name that is there stays as it is, and is an
    /// error. At any error the file may be there with a beginning of its bytes.
    fn make(&mut self, name: &[u8], bytes: &[u8]) -> io::Result<()>
        requires inside { StaysInside name.now }
        ensures free { OnOk result (LacksName (files self.old) name.now) }
        ensures made { OnOk result (AddsFiles (files self.old) (files self.new) (new_file name.now bytes.now ∷ [])) }
        ensures part { OnErr result (AddsPart (files self.old) (files self.new) (new_file name.now bytes.now ∷ [])) };
}
