//! The system, call by call.
ghost use Rattle.std.specs.Prelude.{◌≡◌, ◌≤◌, ◌<◌, IfOk, length, string_bytes, true};
ghost use Rattle.one_host.specs.Calls.{AreRead, IsAnswered, IsFolderMade, IsGuarded, IsHeard, IsMade, IsMoved, IsPrinted, IsRemoved, IsRenamed, IsSeen, IsSeenToLead, Steps, at_once, ended, entry, folder_synced, folder_unsynced, half_changed, has_both, lengthened, locked, makes, put, says, synced, unsynced, written};
ghost use Rattle.one_host.specs.History.{HostHistory, Known};
ghost use Rattle.one_host.specs.Rights.{Look, Make, May, Remove, Replace, Rights, use_of};
ghost use Rattle.one_host.specs.declared.parts.Entry.TheVariants.{Leads};
ghost use Rattle.one_host.specs.declared.parts.Kind.TheVariants.{Regular};
ghost use Rattle.one_host.specs.declared.parts.Lock.TheVariants.{Free};

use crate::parts::{Access, Attributes, Failure, Found, Handle, Lock, Stream};
use std::alloc::Global;

/// The system. Where its history is known, each call says what the world is afterwards, and what it may have been at any
/// moment of the call. A call of a file that isn't open fails.
///
/// A path is a text, and two texts are two names: a name that is spelled in two ways isn't modelled. Neither are the names
/// inside a folder that gets another name, owners, second names that others give a file, numbers that a system gives again
/// to a new file, and a disk that changes what is synced.
pub trait Host {
    /// What the world is, what it was at any moment since an earlier one, and which calls failed.
    ghost history: { HostHistory Self };

    // what may be done with its files
    ghost rights: { Rights };

    /// What stands at a path, a link followed. (`stat`, and `lstat` where nothing was found.)
    fn look(&mut self, path: &str) -> Result<Found, Failure>
        requires { May rights Look path.now }
        ensures { Known history → Steps history self.old self.new (says (IsSeen path.now)) at_once result };

    /// Whether a path leads to this open file. (`stat` and `fstat`: the same device and number there.)
    fn leads(&mut self, path: &str, file: Handle) -> Result<bool, Failure>
        requires { May rights Look path.now }
        ensures { Known history → Steps history self.old self.new (says (IsSeenToLead path.now file.number)) at_once result };

    /// The path of the file to which a path leads, no link on the way. It is the path itself if there is no file, or if the
    /// system doesn't know. (`realpath`.)
    fn resolve(&mut self, alloc: Global, path: &str) -> Result<String, Failure>
        requires { May rights Look path.now }
        ensures leads { IfOk result (λ found. rights.leads path.now (string_bytes found) ≡ true) }
        ensures steps { Known history → Steps history self.old self.new
            (says (λ found w. entry w (string_bytes found) ≡ entry w path.now)) at_once result };

    /// Opens the file at a path. A file that is open already isn't opened a second time: it keeps its handle, its lock, and
    /// what it was opened for. (`open`, without `O_CREAT` and `O_TRUNC`, and `fstat`.)
    fn open(&mut self, path: &str, access: Access) -> Result<Handle, Failure>
        requires { May rights (use_of access) path.now }
        ensures { Known history → Steps history self.old self.new
            (says (λ file w. (entry w path.now ≡ Leads file.number) × (file.number < w.used))) at_once result };

    /// Makes a file at a path, open to be written, with these of the bits of its mode that the system lets a file have. An
    /// error if anything stands there. (`open` with `O_CREAT` and `O_EXCL`.)
    fn make(&mut self, path: &str, mode: u32) -> Result<Handle, Failure>
        requires { May rights Make path.now }
        ensures { Known history → Steps history self.old self.new (IsMade path.now Regular) at_once result };

    /// Makes a folder at a path. An error if anything stands there. (`mkdir`.)
    fn make_folder(&mut self, path: &str) -> Result<(), Failure>
        requires { May rights Make path.now }
        ensures { Known history → Steps history self.old self.new (IsFolderMade path.now) at_once result };

    /// Gives what stands at a path another name, in the place of the file that had it. At each moment the second path leads to
    /// the one file or to the other. Until the folder is synced, a power loss may take either name back, each on its own.
    /// (`rename`.)
    fn rename(&mut self, from: &str, to: &str) -> Result<(), Failure>
        requires from { May rights Remove from.now }
        requires to { May rights Replace to.now }
        ensures { Known history → Steps history self.old self.new (IsRenamed from.now to.now) at_once result };

    /// Gives what stands at a path a name at which nothing stands. An error if anything does. (`link` and `unlink`: between
    /// them, and after an error, it may have both names. Where there are no links, `lstat` and `rename`: what comes there
    /// between these two is lost.)
    fn give_free_name(&mut self, from: &str, to: &str) -> Result<(), Failure>
        requires from { May rights Remove from.now }
        requires look { May rights Look to.now }
        requires to { May rights Make to.now }
        ensures { Known history → Steps history self.old self.new (IsMoved from.now to.now) (has_both from.now to.now) result };

    /// Takes the name of the file at a path away. An open file stays as it is. (`unlink`.)
    fn remove(&mut self, path: &str) -> Result<(), Failure>
        requires { May rights Remove path.now }
        ensures { Known history → Steps history self.old self.new (IsRemoved path.now) at_once result };

    /// Takes the name of the empty folder at a path away. (`rmdir`.)
    fn remove_folder(&mut self, path: &str) -> Result<(), Failure>
        requires { May rights Remove path.now }
        ensures { Known history → Steps history self.old self.new (IsRemoved path.now) at_once result };

    /// From then on a power loss leaves the names that are in the folder of this path, unless a sync of that has failed.
    /// (`fsync` of the folder.)
    fn sync_folder(&mut self, path: &str) -> Result<(), Failure>
        requires { May rights Look path.now }
        ensures { Known history → Steps history self.old self.new (makes (λ w. folder_synced w path.now))
            (λ w v. v ≡ folder_unsynced w path.now) result };

    /// How many bytes a file has. (`fstat`.)
    fn size(&mut self, file: Handle) -> Result<u64, Failure>
        ensures { Known history → Steps history self.old self.new
            (says (λ size w. size ≡ length (w.files file.number).bytes.now)) at_once result };

    /// Reads bytes of a file from a place on: fewer than there is room for only where the file ends. (`pread`, until the room
    /// is full or nothing comes.)
    fn read_at(&mut self, file: Handle, at: u64, to: &mut [u8]) -> Result<usize, Failure>
        ensures sized { length to.new ≡ length to.old }
        ensures within { IfOk result (λ count. count ≤ length to.new) }
        ensures steps { Known history → Steps history self.old self.new
            (says (AreRead file.number at (length to.old) to.new)) at_once result };

    /// Writes all these bytes over those from a place on. Until a sync a power loss leaves each byte as it was or as it is,
    /// on its own; an error does that to what is read, too. (`pwrite`, until all is written.)
    fn write_at(&mut self, file: Handle, at: u64, bytes: &[u8]) -> Result<(), Failure>
        ensures { Known history → Steps history self.old self.new (makes (λ w. written w file.number at bytes.now))
            (half_changed file.number (λ old. put old at bytes.now)) result };

    /// Ends a file after this many bytes; zeros fill what was missing. (`ftruncate`.)
    fn set_size(&mut self, file: Handle, size: u64) -> Result<(), Failure>
        ensures { Known history → Steps history self.old self.new (makes (λ w. lengthened w file.number size))
            (half_changed file.number (λ old. ended old size)) result };

    /// From then on a power loss leaves what a read returns. If it fails, or if an earlier sync of this file has failed, it
    /// promises nothing: Linux forgets what it couldn't write. (`fsync`.)
    fn sync(&mut self, file: Handle) -> Result<(), Failure>
        ensures { Known history → Steps history self.old self.new (makes (λ w. synced w file.number))
            (λ w v. v ≡ unsynced w file.number) result };

    /// Lets those people read and write a file who may do so with a file of which the system said this, as far as it allows
    /// that, and nobody else. (`fchown` and `fchmod`. No error of these is returned.) Nothing is said of the mode that it gets.
    fn guard_as(&mut self, file: Handle, like: &Attributes) -> Result<(), Failure>
        ensures { Known history → Steps history self.old self.new (λ _. IsGuarded file.number) at_once result };

    /// Asks for a lock, and doesn't wait. False if others have one that keeps this one out; the lock that the program had
    /// until then is lost. It binds programs that ask for it, and no others. (`flock` with `LOCK_NB`.)
    fn lock(&mut self, file: Handle, how: Lock) -> Result<bool, Failure>
        ensures { Known history → Steps history self.old self.new
            (IsAnswered file.number how (history.others self.new file.number)) (λ w v. v ≡ locked w file.number Free) result };

    /// Closes a file. Its lock goes, and what was written stays as it is, synced or not. (`close`. Its error isn't returned.)
    fn close(&mut self, file: Handle) -> Result<(), Failure>
        ensures { Known history → Steps history self.old self.new (makes (λ w. locked w file.number Free)) at_once result };

    /// Reads bytes of standard input. None at its end. (`read`.)
    fn read_input(&mut self, to: &mut [u8]) -> Result<usize, Failure>
        requires { 0 < length to.old }
        ensures sized { length to.new ≡ length to.old }
        ensures within { IfOk result (λ count. count ≤ length to.new) }
        ensures steps { Known history → Steps history self.old self.new (IsHeard to.new) at_once result };

    /// Prints the first bytes of a text, and says how many. At an error none was printed. (`write`.)
    fn print(&mut self, stream: Stream, text: &[u8]) -> Result<usize, Failure>
        ensures within { IfOk result (λ count. count ≤ length text.now) }
        ensures steps { Known history → Steps history self.old self.new (IsPrinted stream text.now) at_once result };
}
