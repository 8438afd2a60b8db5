//! The system in memory.
ghost use Rattle.std.specs.Prelude.{◌≡◌, ◌<◌, ◌≤◌, IfOk, IfSome, Some, drop, if◌then◌else◌, length, not, string_bytes, take};
ghost use Rattle.one_host.specs.Calls.{IsMade, IsMoved, IsRemoved, IsRenamed, IsSeen, IsSeenToLead, are_one, entry, folder_synced, heard, keeps_out, lengthened, printed, written};
ghost use Rattle.one_host.specs.declared.parts.Entry.TheVariants.{Leads};
ghost use Rattle.one_host.specs.declared.parts.Lock.TheVariants.{Free};
ghost use Rattle.one_host.specs.Rights.{all_rights};
ghost use Rattle.mem_host.specs.Film.{Attempts, Passes, film, theirs};
ghost use Rattle.mem_host.specs.Moves.{acted};

use crate::current::{bytes_of, entry_at, heard_by, kind_of, mode_of, used};
use crate::moves::Move;
use crate::putting::{copy_from, ended_at, put_over};
use one_host::{
    About, Access, Attributes, Entry, Failure, Found, Handle, Host, Kind, Lock, Stream,
};
use std::alloc::Global;
use std::io::{self, ErrorKind};

/// A lock that another program has.
#[derive(Clone, Copy, Debug)]
pub struct Taken {
    /// The number of the file.
    pub number: usize,
    /// How it is locked.
    pub how: Lock,
}

/// What another program or a person does before a call.
#[derive(Drop)]
pub struct Hand {
    /// How many calls come before.
    pub calls: usize,
    /// The path that is made to lead elsewhere.
    pub path: Vec<u8>,
    /// Where it leads then.
    pub entry: Entry,
}

/// A system in memory, with each world that it had. Its maker chooses which call fails, which lock others have, and what
/// others do. It fails too where memory is refused, and where a call asks for what isn't there.
#[derive(Drop)]
pub struct MemHost {
    alloc: Global,
    moves: Vec<Move>,
    input: Vec<u8>,
    taken: Option<Taken>,
    hand: Option<Hand>,
    calls: usize,
    failed: Option<Failure>,
}

/// Why a call failed.
fn failure(kind: ErrorKind, about: About) -> Failure {
    Failure {
        error: io::Error::from(kind),
        about,
    }
}

/// Whether a lock that others have keeps this one out.
fn keeps_out(theirs: Lock, how: Lock) -> bool
    ensures { result ≡ keeps_out theirs how }
{
    match theirs {
        Lock::Free => false,
        Lock::Alone => true,
        Lock::Shared => how == Lock::Alone,
    }
}

/// The lock that others have on a file.
fn taken_at(taken: Option<Taken>, number: usize) -> Lock
    ensures { result ≡ theirs taken number }
{
    match taken {
        Some(taken) if number == taken.number => taken.how,
        _ => Lock::Free,
    }
}

/// The lock that the program has after it has asked for one.
fn chosen(got: bool, how: Lock) -> Lock
    ensures { result ≡ if got then how else Free }
{
    if got { how } else { Lock::Free }
}

/// Whether two names lead to one file.
fn is_one(a: Entry, b: Entry) -> bool
    ensures { result ≡ are_one a b }
{
    match (a, b) {
        (Entry::Leads(n), Entry::Leads(m)) => n == m,
        _ => false,
    }
}

impl MemHost {
    /// A system where this was done, with this input. So many calls pass, and the next ones fail.
    pub fn new(alloc: Global, moves: Vec<Move>, input: Vec<u8>, calls: usize) -> MemHost
        ensures moves { result.moves ≡ moves }
    {
        MemHost {
            alloc,
            moves,
            input,
            taken: None,
            hand: None,
            calls,
            failed: None,
        }
    }

    /// Others have this lock from now on.
    pub fn take(&mut self, taken: Option<Taken>)
        ensures moves { self.new.moves ≡ self.old.moves }
    {
        self.taken = taken;
    }

    /// Another program or a person will do this.
    pub fn lend_a_hand(&mut self, hand: Hand)
        ensures moves { self.new.moves ≡ self.old.moves }
    {
        self.hand = Some(hand);
    }

    /// What was done, one thing after another.
    pub fn moves(&self) -> &[Move]
        ensures { result.now ≡ self.now.moves.items }
    {
        self.moves.as_slice()
    }

    /// Keeps why a call failed.
    fn fail(&mut self, kind: ErrorKind, about: About) -> Failure
        ensures moves { self.new.moves ≡ self.old.moves }
        ensures taken { self.new.taken ≡ self.old.taken }
        ensures failed { self.new.failed ≡ Some result }
    {
        let why = failure(kind, about);
        self.failed = Some(why);
        why
    }

    /// Does this, if there is something to be done.
    fn attempt(&mut self, what: Result<Move, ErrorKind>, about: About) -> Result<(), Failure>
        ensures { Attempts self.old self.new what result }
    {
        let what = match what {
            Ok(what) => what,
            Err(kind) => return Err(self.fail(kind, about)),
        };
        let Ok(()) = self.moves.push(what) else {
            return Err(self.fail(ErrorKind::OutOfMemory, about));
        };
        Ok(())
    }

    /// Another program or a person does before this call what is planned.
    fn meddle(&mut self, about: About) -> Result<(), Failure>
        ensures { Passes self.old self.new result }
    {
        let Some(hand) = self.hand.take() else {
            return Ok(());
        };
        let Hand { calls, path, entry } = hand;
        if calls > 0 {
            let calls = calls - 1;
            self.hand = Some(Hand { calls, path, entry });
            return Ok(());
        }
        let Ok(()) = self.moves.push(Move::Meddled(path, entry)) else {
            return Err(self.fail(ErrorKind::OutOfMemory, about));
        };
        Ok(())
    }

    /// A call begins, unless it is to fail.
    fn pass(&mut self, about: About) -> Result<(), Failure>
        ensures { Passes self.old self.new result }
    {
        self.meddle(about)?;
        if self.calls == 0 {
            return Err(self.fail(ErrorKind::Other, about));
        }
        self.calls -= 1;
        Ok(())
    }

    fn found_at(&self, path: &str) -> Found
        ensures { IsSeen path.now result (film.world self.now) }
    {
        match entry_at(self.moves.as_slice(), path.as_bytes()) {
            Entry::Nothing => Found::Nothing,
            Entry::Nowhere => Found::Nowhere,
            Entry::Leads(number) => Found::File(Attributes {
                kind: kind_of(self.moves.as_slice(), number),
                bytes: bytes_of(self.moves.as_slice(), number).len() as u64,
                mode: mode_of(self.moves.as_slice(), number),
                owner: 0,
                group: 0,
            }),
        }
    }

    fn copy_of(&self, text: &[u8]) -> Result<Vec<u8>, ErrorKind>
        ensures { IfOk result (λ copy. copy.items ≡ text.now) }
    {
        match text.to_vec(self.alloc) {
            Ok(copy) => Ok(copy),
            Err(_) => Err(ErrorKind::OutOfMemory),
        }
    }

    fn leads_to(&self, path: &str, file: Handle) -> bool
        ensures { IsSeenToLead path.now file.number result (film.world self.now) }
    {
        match entry_at(self.moves.as_slice(), path.as_bytes()) {
            Entry::Leads(number) => number == file.number,
            Entry::Nothing | Entry::Nowhere => false,
        }
    }

    /// The file to which a path leads, if it can be opened.
    fn file_at(&self, path: &str) -> Option<Handle>
        ensures { IfSome result (λ file. (entry (film.world self.now) path.now ≡ Leads file.number)
            × (file.number < (film.world self.now).used)) }
    {
        match (
            entry_at(self.moves.as_slice(), path.as_bytes()),
            used(self.moves.as_slice()),
        ) {
            (Entry::Leads(number), Some(count)) if number < count => Some(Handle { number }),
            _ => None,
        }
    }

    /// Whether the program would get a lock.
    fn would_get(&self, file: Handle, how: Lock) -> bool
        ensures { keeps_out (theirs self.now.taken file.number) how ≡ not result }
    {
        !keeps_out(taken_at(self.taken, file.number), how)
    }

    /// How many bytes a file has.
    fn size_of(&self, file: Handle) -> u64
        ensures { result ≡ length ((film.world self.now).files file.number).bytes.now }
    {
        bytes_of(self.moves.as_slice(), file.number).len() as u64
    }

    /// Copies bytes of a file from a place on, as far as there are any, and says how many.
    fn read_from(&self, file: Handle, at: usize, to: &mut [u8]) -> usize
        ensures within { result ≤ length to.new }
        ensures sized { length to.new ≡ length to.old }
        ensures copied { take result to.new ≡ take (length to.old) (drop at ((film.world self.now).files file.number).bytes.now) }
    {
        copy_from(bytes_of(self.moves.as_slice(), file.number), at, to)
    }

    /// What had the first path gets the second one, at which nothing is.
    fn moving_of(&self, from: &str, to: &str) -> Result<Move, ErrorKind>
        ensures { IfOk result (λ what. IsMoved from.now to.now (tt {0}) (film.world self.now) (acted (film.world self.now) what)) }
    {
        if entry_at(self.moves.as_slice(), to.as_bytes()) != Entry::Nothing {
            return Err(ErrorKind::AlreadyExists);
        }
        let found = entry_at(self.moves.as_slice(), from.as_bytes());
        let from = self.copy_of(from.as_bytes())?;
        let to = self.copy_of(to.as_bytes())?;
        Ok(Move::Moved(from, to, found))
    }

    /// A file gets another name, in the place of the file that had it.
    fn renaming_of(&self, from: &str, to: &str) -> Result<Move, ErrorKind>
        ensures { IfOk result (λ what. IsRenamed from.now to.now (tt {0}) (film.world self.now) (acted (film.world self.now) what)) }
    {
        let found = entry_at(self.moves.as_slice(), from.as_bytes());
        if found == Entry::Nothing {
            return Err(ErrorKind::NotFound);
        }
        if is_one(found, entry_at(self.moves.as_slice(), to.as_bytes())) {
            return Ok(Move::Stayed);
        }
        let from = self.copy_of(from.as_bytes())?;
        let to = self.copy_of(to.as_bytes())?;
        Ok(Move::Moved(from, to, found))
    }

    /// The name of a file or a folder is taken away.
    fn removal_of(&self, path: &str) -> Result<Move, ErrorKind>
        ensures { IfOk result (λ what. IsRemoved path.now (tt {0}) (film.world self.now) (acted (film.world self.now) what)) }
    {
        if entry_at(self.moves.as_slice(), path.as_bytes()) == Entry::Nothing {
            return Err(ErrorKind::NotFound);
        }
        Ok(Move::Entered(self.copy_of(path.as_bytes())?, Entry::Nothing))
    }

    /// The number of the next file that is made.
    fn next_number(&self) -> usize {
        used(self.moves.as_slice()).unwrap_or(0)
    }

    /// A file or a folder with this number is made at a path where nothing is.
    fn making_of(&self, number: usize, path: &str, kind: Kind, mode: u32) -> Result<Move, ErrorKind>
        ensures { IfOk result (λ what. IsMade path.now kind (record { number = number }) (film.world self.now)
            (acted (film.world self.now) what)) }
    {
        if entry_at(self.moves.as_slice(), path.as_bytes()) != Entry::Nothing {
            return Err(ErrorKind::AlreadyExists);
        }
        match used(self.moves.as_slice()) {
            Some(count) if count == number => Ok(Move::Made(
                number,
                self.copy_of(path.as_bytes())?,
                kind,
                mode,
            )),
            _ => Err(ErrorKind::OutOfMemory),
        }
    }

    /// The names in a folder are synced.
    fn settling_of(&self, path: &str) -> Result<Move, ErrorKind>
        ensures { IfOk result (λ what. acted (film.world self.now) what ≡ folder_synced (film.world self.now) path.now) }
    {
        Ok(Move::FolderSynced(self.copy_of(path.as_bytes())?))
    }

    /// These bytes are put over those of a file.
    fn writing_of(&self, file: Handle, at: usize, bytes: &[u8]) -> Result<Move, ErrorKind>
        ensures { IfOk result (λ what. acted (film.world self.now) what ≡ written (film.world self.now) file.number at bytes.now) }
    {
        match put_over(
            self.alloc,
            bytes_of(self.moves.as_slice(), file.number),
            at,
            bytes,
        ) {
            Ok(all) => Ok(Move::Changed(file.number, all)),
            Err(_) => Err(ErrorKind::OutOfMemory),
        }
    }

    /// A file is ended.
    fn ending_of(&self, file: Handle, size: usize) -> Result<Move, ErrorKind>
        ensures { IfOk result (λ what. acted (film.world self.now) what ≡ lengthened (film.world self.now) file.number size) }
    {
        match ended_at(
            self.alloc,
            bytes_of(self.moves.as_slice(), file.number),
            size,
        ) {
            Ok(all) => Ok(Move::Changed(file.number, all)),
            Err(_) => Err(ErrorKind::OutOfMemory),
        }
    }

    /// Bytes of the input are read.
    fn hearing_of(&self, count: usize, to: &[u8]) -> Result<Move, ErrorKind>
        ensures { IfOk result (λ what. acted (film.world self.now) what ≡ heard (film.world self.now) count to.now) }
    {
        Ok(Move::Heard(count, self.copy_of(to)?))
    }

    /// A text is printed.
    fn printing_of(&self, stream: Stream, text: &[u8]) -> Result<Move, ErrorKind>
        ensures { IfOk result (λ what. acted (film.world self.now) what ≡ printed (film.world self.now) stream text.now) }
    {
        Ok(Move::Printed(stream, self.copy_of(text)?))
    }

    fn copy_text(&self, alloc: Global, text: &str) -> Option<String>
        ensures { IfSome result (λ copy. string_bytes copy ≡ text.now) }
    {
        let mut copy = String::new(alloc);
        let Ok(()) = copy.push_str(text) else {
            return None;
        };
        Some(copy)
    }
}

impl Host for MemHost {
    ghost history = { film };

    ghost rights = { all_rights };

    fn look(&mut self, path: &str) -> Result<Found, Failure> {
        self.pass(About::Path)?;
        Ok(self.found_at(path))
    }

    fn leads(&mut self, path: &str, file: Handle) -> Result<bool, Failure> {
        self.pass(About::Path)?;
        Ok(self.leads_to(path, file))
    }

    fn resolve(&mut self, alloc: Global, path: &str) -> Result<String, Failure> {
        self.pass(About::Path)?;
        let Some(copy) = self.copy_text(alloc, path) else {
            return Err(self.fail(ErrorKind::OutOfMemory, About::Path));
        };
        Ok(copy)
    }

    fn open(&mut self, path: &str, _access: Access) -> Result<Handle, Failure> {
        self.pass(About::Path)?;
        let Some(file) = self.file_at(path) else {
            return Err(self.fail(ErrorKind::NotFound, About::Path));
        };
        Ok(file)
    }

    fn make(&mut self, path: &str, mode: u32) -> Result<Handle, Failure> {
        self.pass(About::Path)?;
        let number = self.next_number();
        let what = self.making_of(number, path, Kind::Regular, mode);
        self.attempt(what, About::Path)?;
        Ok(Handle { number })
    }

    fn make_folder(&mut self, path: &str) -> Result<(), Failure> {
        self.pass(About::Path)?;
        let what = self.making_of(self.next_number(), path, Kind::Folder, 0o777);
        self.attempt(what, About::Path)
    }

    fn rename(&mut self, from: &str, to: &str) -> Result<(), Failure> {
        self.pass(About::Path)?;
        let what = self.renaming_of(from, to);
        self.attempt(what, About::Path)
    }

    fn give_free_name(&mut self, from: &str, to: &str) -> Result<(), Failure> {
        self.pass(About::Path)?;
        let what = self.moving_of(from, to);
        self.attempt(what, About::Path)
    }

    fn remove(&mut self, path: &str) -> Result<(), Failure> {
        self.pass(About::Path)?;
        let what = self.removal_of(path);
        self.attempt(what, About::Path)
    }

    fn remove_folder(&mut self, path: &str) -> Result<(), Failure> {
        self.pass(About::Path)?;
        let what = self.removal_of(path);
        self.attempt(what, About::Path)
    }

    fn sync_folder(&mut self, path: &str) -> Result<(), Failure> {
        self.pass(About::Path)?;
        let what = self.settling_of(path);
        self.attempt(what, About::Path)
    }

    fn size(&mut self, file: Handle) -> Result<u64, Failure> {
        self.pass(About::File(file))?;
        Ok(self.size_of(file))
    }

    fn read_at(&mut self, file: Handle, at: u64, to: &mut [u8]) -> Result<usize, Failure> {
        self.pass(About::File(file))?;
        Ok(self.read_from(file, at as usize, to))
    }

    fn write_at(&mut self, file: Handle, at: u64, bytes: &[u8]) -> Result<(), Failure> {
        self.pass(About::File(file))?;
        let what = self.writing_of(file, at as usize, bytes);
        self.attempt(what, About::File(file))
    }

    fn set_size(&mut self, file: Handle, size: u64) -> Result<(), Failure> {
        self.pass(About::File(file))?;
        let what = self.ending_of(file, size as usize);
        self.attempt(what, About::File(file))
    }

    fn sync(&mut self, file: Handle) -> Result<(), Failure> {
        self.pass(About::File(file))?;
        self.attempt(Ok(Move::Synced(file.number)), About::File(file))
    }

    fn guard_as(&mut self, file: Handle, like: &Attributes) -> Result<(), Failure> {
        self.pass(About::File(file))?;
        self.attempt(Ok(Move::Guarded(file.number, like.mode)), About::File(file))
    }

    fn lock(&mut self, file: Handle, how: Lock) -> Result<bool, Failure> {
        self.pass(About::File(file))?;
        let got = self.would_get(file, how);
        let lock = chosen(got, how);
        self.attempt(Ok(Move::Locked(file.number, lock)), About::File(file))?;
        Ok(got)
    }

    fn close(&mut self, file: Handle) -> Result<(), Failure> {
        self.pass(About::File(file))?;
        self.attempt(Ok(Move::Locked(file.number, Lock::Free)), About::File(file))
    }

    fn read_input(&mut self, to: &mut [u8]) -> Result<usize, Failure> {
        self.pass(About::Input)?;
        let count = copy_from(self.input.as_slice(), heard_by(self.moves.as_slice()), to);
        let what = self.hearing_of(count, to);
        self.attempt(what, About::Input)?;
        Ok(count)
    }

    fn print(&mut self, stream: Stream, text: &[u8]) -> Result<usize, Failure> {
        self.pass(About::Output(stream))?;
        let what = self.printing_of(stream, text);
        self.attempt(what, About::Output(stream))?;
        Ok(text.len())
    }
}
