//! A machine: its files, its streams, and what happens to the calls of a run.
ghost use Rattle.std.specs.Prelude.{◌≤◌, IfOk, length};

use crate::acts::{Act, Acts, Turn};
use crate::bytes::{copied, front, rest, take, text_of};
use crate::calls::Call;
use crate::disks::{Disk, FOLDER};
use crate::others::{Deed, Other, Record};
use crate::plans::{Counted, Lock, Plan, Strike};
use crate::random::Random;
use std::alloc::Global;
use std::cell::Cell;
use std::fs::TryLockError;
use std::io::{self, ErrorKind};

/// How far a run is.
#[derive(Clone, Copy)]
struct Run {
    calls: u64,
    steps: u64,
    plan: Plan,
    struck: bool,
    stopped: bool,
    /// Whether the call that is made was one of those that wait.
    is_late: bool,
    /// How many bytes of the input were read, and how many lines a read gives at most.
    taken: usize,
    lines: u64,
    random: Random,
    /// How many naps the program takes until locks of other programs fall.
    naps: u64,
}

/// A machine in memory.
#[derive(Drop)]
pub struct Machine {
    pub(crate) alloc: Global,
    disk: Cell<Disk>,
    run: Cell<Run>,
    input: Cell<Vec<u8>>,
    output: Cell<Vec<u8>>,
    words: Cell<&'static [&'static str]>,
    acts: Cell<Acts>,
    waiting: Cell<Vec<Call>>,
    /// What the program does, if that is recorded.
    record: Cell<Option<Record>>,
    other: Cell<Other>,
}

/// The error of a call that fails.
fn failed() -> io::Error {
    ErrorKind::Other.into()
}

/// How many bytes a write that fails has written: some first sectors.
fn part_of(count: usize, part: u64) -> usize {
    let sectors = count / 256;
    let drawn = part % (sectors as u64 + 1);
    (drawn as usize).saturating_mul(256).min(count)
}

/// How many of these bytes stand in so many lines.
fn lines_of(bytes: &[u8], lines: u64) -> usize {
    let mut left = lines;
    for (at, byte) in bytes.iter().enumerate() {
        if *byte == b'\n' {
            left = left.saturating_sub(1);
            if left == 0 {
                return at.saturating_add(1);
            }
        }
    }
    bytes.len()
}

impl Run {
    /// A run that begins.
    fn new(plan: Plan, lines: u64, seed: u64) -> Run {
        Run {
            calls: 0,
            steps: 0,
            plan,
            struck: false,
            stopped: false,
            is_late: false,
            taken: 0,
            lines,
            random: Random::new(seed),
            naps: 0,
        }
    }

    /// Counts a call. What happens to it.
    fn next(&mut self, is_step: bool) -> Strike {
        if self.stopped {
            // the call that was struck was the last one, whichever it was
            self.plan.at = 0;
            return Strike::Stops;
        }
        self.calls = self.calls.saturating_add(1);
        if is_step {
            self.steps = self.steps.saturating_add(1);
        }
        let is_counted = is_step || self.plan.counted == Counted::All;
        let number = match self.plan.counted {
            Counted::All => self.calls,
            Counted::Steps => self.steps,
        };
        if !is_counted || number != self.plan.at {
            return Strike::Passes;
        }
        // a late call has returned before, so it can't fail
        if self.is_late && self.plan.what == Strike::Fails {
            return Strike::Passes;
        }
        self.struck = true;
        self.stopped = self.plan.what == Strike::Stops;
        self.plan.what
    }
}

impl Machine {
    /// A machine without files.
    pub fn new(alloc: Global) -> Machine {
        Machine {
            alloc,
            disk: Cell::new(Disk::new(alloc)),
            run: Cell::new(Run::new(Plan::NONE, 1, 0)),
            input: Cell::new(Vec::new(alloc)),
            output: Cell::new(Vec::new(alloc)),
            words: Cell::new(&[]),
            acts: Cell::new(Acts::ALL),
            waiting: Cell::new(Vec::new(alloc)),
            record: Cell::new(None),
            other: Cell::new(Other::none(alloc)),
        }
    }

    /// From now on one call isn't made, though the program sees no error: the number of its kind, and 16 times that of the kind of
    /// the call before it. So a simulation is tried itself: it has to find that.
    pub fn leave_out(&self, number: usize) {
        self.acts.set(Acts::without(number));
    }

    /// From now on one call is made late, after the next call of another kind that changes or prints something, or at the run's end:
    /// the number of its kind, and 16 times that of the kind of the call before it. The program may be stopped between the two.
    pub fn delay(&self, number: usize) {
        self.acts.set(Acts::delaying(number));
    }

    /// From now on a link is refused, as on a file system on which a file has one name. The other calls are as before.
    pub fn refuse_links(&self) {
        let mut disk = self.disk();
        disk.refuse_links();
        self.disk.set(disk);
    }

    /// Which calls were made after which other ones.
    pub fn acts(&self) -> Acts {
        self.acts.get()
    }

    /// A call comes that changes something. What becomes of it.
    fn comes(&self, act: Act) -> Turn {
        let mut acts = self.acts.get();
        let turn = acts.come(act);
        self.acts.set(acts);
        turn
    }

    /// The files, which are put back.
    fn disk(&self) -> Disk {
        self.disk.replace(Disk::new(self.alloc))
    }

    /// A run with these words and this input begins. A read of the input gives so many lines at most, by a seed. The output is
    /// empty.
    pub fn begin(
        &self,
        words: &'static [&'static str],
        input: Vec<u8>,
        lines: u64,
        seed: u64,
        plan: Plan,
    ) {
        self.words.set(words);
        self.input.set(input);
        self.output.set(Vec::new(self.alloc));
        self.waiting.set(Vec::new(self.alloc));
        let _ = self.comes(Act::Begin);
        let mut run = Run::new(plan, lines, seed);
        run.naps = self.run.get().naps;
        self.run.set(run);
        let mut disk = self.disk();
        disk.sweep();
        self.disk.set(disk);
    }

    /// The program has ended. What waits is made, unless the program was stopped.
    pub fn finish(&self) {
        self.catch_up(!self.is_stopped());
    }

    /// Whether the program was stopped.
    pub fn is_stopped(&self) -> bool {
        self.run.get().stopped
    }

    /// Whether something happened to a call.
    pub fn is_struck(&self) -> bool {
        self.run.get().struck
    }

    /// How many calls there were, of all or of those that are steps.
    pub fn calls(&self, counted: Counted) -> u64 {
        let run = self.run.get();
        match counted {
            Counted::All => run.calls,
            Counted::Steps => run.steps,
        }
    }

    /// How many bytes of the input were read.
    pub fn taken(&self) -> usize {
        self.run.get().taken
    }

    /// What was printed, which is taken.
    pub fn printed(&self) -> Vec<u8> {
        self.output.replace(Vec::new(self.alloc))
    }

    /// Power goes.
    pub fn lose_power(&self, random: &mut Random) -> io::Result<()> {
        let mut disk = self.disk();
        let left = disk.lose_power(random);
        self.disk.set(disk);
        left
    }

    /// Whether a file is at a path.
    pub fn has_file(&self, path: &str) -> bool {
        self.find(path).is_ok()
    }

    /// What the file at a path holds. An error if there is none.
    pub fn bytes_of(&self, path: &str) -> io::Result<Vec<u8>> {
        let disk = self.disk();
        let bytes = disk.bytes_of(path);
        self.disk.set(disk);
        bytes
    }

    /// Puts a file with these bytes at a path, in the place of one that is there, and syncs all.
    pub fn put_file(&self, path: &str, bytes: &[u8]) -> io::Result<()> {
        let mut disk = self.disk();
        let put = put_file(&mut disk, path, bytes);
        self.disk.set(disk);
        put
    }

    /// Gives the file at a path another name, and syncs all.
    pub fn move_file(&self, from: &str, to: &str) -> io::Result<()> {
        let mut disk = self.disk();
        let moved = disk.rename(from, to);
        let synced = disk.sync_all();
        self.disk.set(disk);
        moved?;
        synced
    }

    /// Takes the name of the file at a path away, and syncs all.
    pub fn remove_file(&self, path: &str) -> io::Result<()> {
        let mut disk = self.disk();
        let removed = disk.remove(path);
        let synced = disk.sync_all();
        self.disk.set(disk);
        removed?;
        synced
    }

    /// Another program locks the file at a path, until the program has taken so many naps.
    pub fn lock_by_other(&self, path: &str, lock: Lock, naps: u64) {
        let mut disk = self.disk();
        disk.set_lock(path, lock);
        self.disk.set(disk);
        let mut run = self.run.get();
        run.naps = naps;
        self.run.set(run);
    }

    /// Other programs have no locks any more.
    pub fn free_locks(&self) {
        let mut disk = self.disk();
        disk.free();
        self.disk.set(disk);
    }

    /// The program takes a nap.
    pub(crate) fn nap(&self) {
        let mut run = self.run.get();
        let was_locked = run.naps > 0;
        run.naps = run.naps.saturating_sub(1);
        let frees = was_locked && run.naps == 0;
        self.run.set(run);
        self.go_on();
        if frees {
            self.free_locks();
        }
    }

    /// Counts a call, before which another program goes on. What happens to it.
    fn next(&self, is_step: bool) -> Strike {
        self.go_on();
        let mut run = self.run.get();
        let strike = run.next(is_step);
        self.run.set(run);
        strike
    }

    /// Whether a call that is struck was done.
    fn is_done(&self) -> bool {
        self.run.get().plan.part & 1 == 1
    }

    /// Counts a call that changes nothing. An error if it fails.
    pub(crate) fn pass(&self) -> io::Result<()> {
        match self.next(false) {
            Strike::Passes | Strike::IsShort => Ok(()),
            Strike::Fails | Strike::Stops => Err(failed()),
        }
    }

    /// The words of the run.
    pub(crate) fn words(&self) -> &'static [&'static str] {
        self.words.get()
    }
}

/// Which kind of file stands at a path.
#[derive(Clone, Copy)]
enum Role {
    Folder,
    Image,
    Log,
    Making,
    Other,
}

/// The kind of the file that stands at a path.
fn role_of(path: &str) -> Role {
    if path.ends_with("-log.new") {
        return Role::Making;
    }
    if path.ends_with("-log") {
        return Role::Log;
    }
    if path == "shop.d64" {
        Role::Image
    } else {
        Role::Other
    }
}

/// Which sync it is of a file of this kind.
fn sync_of(role: Role) -> Act {
    match role {
        Role::Folder => Act::SyncFolder,
        Role::Image => Act::SyncImage,
        Role::Log => Act::SyncLog,
        Role::Making => Act::SyncMaking,
        Role::Other => Act::SyncOther,
    }
}

/// Which write it is of so many bytes to a file of this kind.
fn write_of(role: Role, count: usize) -> Act {
    if count == 1 {
        return Act::WriteByte;
    }
    match role {
        Role::Image => Act::WriteImage,
        Role::Log => Act::WriteLog,
        Role::Making => Act::WriteMaking,
        Role::Folder | Role::Other => Act::WriteOther,
    }
}

/// Puts a file with these bytes at a path, in the place of one that is there, and syncs all.
fn put_file(disk: &mut Disk, path: &str, bytes: &[u8]) -> io::Result<()> {
    if disk.find(path).is_ok() {
        disk.remove(path)?;
    }
    let number = disk.make(path)?;
    disk.write(number, 0, bytes)?;
    disk.sync_all()
}

// Its calls about files.
impl Machine {
    /// The number of the file at a path.
    pub(crate) fn find(&self, path: &str) -> io::Result<usize> {
        if path == "." {
            return Ok(FOLDER);
        }
        let disk = self.disk();
        let found = disk.find(path);
        self.disk.set(disk);
        found
    }

    /// Which kind of file it is.
    fn role(&self, number: usize) -> Role {
        if number == FOLDER {
            return Role::Folder;
        }
        let disk = self.disk();
        let role = role_of(disk.path_of(number));
        self.disk.set(disk);
        role
    }

    /// How many bytes a file holds.
    pub(crate) fn size(&self, number: usize) -> usize {
        let disk = self.disk();
        let size = disk.size(number);
        self.disk.set(disk);
        size
    }

    /// The lock that another program has on a file.
    pub(crate) fn try_lock(&self, number: usize, is_alone: bool) -> Result<(), TryLockError> {
        if let Err(error) = self.pass() {
            return Err(TryLockError::Error(error));
        }
        let disk = self.disk();
        let lock = disk.lock(number);
        self.disk.set(disk);
        if lock == Lock::Alone || lock == Lock::Shared && is_alone {
            return Err(TryLockError::WouldBlock);
        }
        if is_alone {
            return Ok(());
        }
        match self.record_deed(Deed::Shared) {
            Ok(()) => Ok(()),
            Err(error) => Err(TryLockError::Error(error)),
        }
    }

    /// Fills a buffer with a file's bytes from there on. Returns how many there were.
    pub(crate) fn read(&self, number: usize, at: usize, buf: &mut [u8]) -> io::Result<usize>
        ensures few { IfOk result (λ n. n ≤ length buf.new) }
    {
        let most = match self.next(false) {
            Strike::Passes => buf.len(),
            Strike::IsShort => buf.len() / 2 + buf.len() % 2,
            Strike::Fails | Strike::Stops => return Err(failed()),
        };
        let disk = self.disk();
        let count = disk.read(number, at, &mut buf[..most]);
        self.disk.set(disk);
        Ok(count)
    }

    /// Puts bytes over those of a file from there on.
    fn put(&self, number: usize, at: usize, bytes: &[u8]) -> io::Result<()> {
        let mut disk = self.disk();
        let written = disk.write(number, at, bytes);
        self.disk.set(disk);
        written
    }

    /// The same in two turns.
    fn put_twice(&self, number: usize, at: usize, bytes: &[u8]) -> io::Result<()> {
        let half = bytes.len() / 2;
        self.put(number, at, front(bytes, half))?;
        self.put(number, at.saturating_add(half), rest(bytes, half))
    }

    /// The same of a call that is counted.
    fn put_counted(&self, number: usize, at: usize, bytes: &[u8]) -> io::Result<()> {
        match self.next(false) {
            Strike::Passes => self.put(number, at, bytes),
            Strike::IsShort => self.put_twice(number, at, bytes),
            Strike::Fails | Strike::Stops => {
                self.leave_part(number, at, bytes);
                Err(failed())
            }
        }
    }

    /// What a write leaves that is struck. Nothing is left once the program is stopped.
    fn leave_part(&self, number: usize, at: usize, bytes: &[u8]) {
        let run = self.run.get();
        let count = part_of(bytes.len(), run.plan.part);
        if self.is_last() {
            let _ = self.put(number, at, front(bytes, count));
        }
    }

    /// Whether the call that is made, and isn't done, is the one that is struck. After it a stopped program does nothing any more.
    fn is_last(&self) -> bool {
        self.run.get().plan.at != 0
    }

    /// Whether a call that changes something is done, and whether it returns Ok.
    fn step(&self, is_step: bool) -> (bool, bool) {
        match self.next(is_step) {
            Strike::Passes | Strike::IsShort => (true, true),
            Strike::Fails | Strike::Stops => (self.is_last() && self.is_done(), false),
        }
    }

    /// Makes a call on the files.
    fn change(&self, call: &Call) -> io::Result<()> {
        let mut disk = self.disk();
        let changed = disk.change(call);
        self.disk.set(disk);
        changed
    }

    /// The same of a call that is counted.
    fn change_counted(&self, call: &Call) -> io::Result<()> {
        let (does, passes) = self.step(call.is_step());
        // a link that fails isn't made, since the program then takes the other name for somebody's file
        let does = does && (passes || !call.is_link() || self.is_stopped());
        let changed = if does { self.change(call) } else { Ok(()) };
        if passes { changed } else { Err(failed()) }
    }

    /// Makes a call, to which something may happen.
    fn make_call(&self, call: &Call) -> io::Result<()> {
        match call {
            Call::Write { number, at, bytes } => self.put_counted(*number, *at, bytes.as_slice()),
            _ => self.change_counted(call),
        }
    }

    /// Which kind of call it is.
    fn act_of(&self, call: &Call) -> Act {
        match call {
            Call::Write { number, bytes, .. } => write_of(self.role(*number), bytes.len()),
            Call::End { .. } => Act::End,
            Call::Sync { number } => sync_of(self.role(*number)),
            Call::Make { .. } => Act::Make,
            Call::Link { .. } => Act::Link,
            Call::Remove { .. } => Act::Remove,
            Call::Rename { .. } => Act::Rename,
        }
    }

    /// Keeps a call that waits.
    fn keep(&self, call: Call) -> io::Result<()> {
        let mut waiting = self.waiting.replace(Vec::new(self.alloc));
        let kept = waiting.push(call);
        self.waiting.set(waiting);
        Ok(kept?)
    }

    /// Whether the next call is one of those that waited.
    fn set_late(&self, is_late: bool) {
        let mut run = self.run.get();
        run.is_late = is_late;
        self.run.set(run);
    }

    /// Another call was made, for which some wait: they are made, too. If it failed they aren't, as if they stood after it.
    fn catch_up(&self, is_made: bool) {
        let waiting = self.waiting.replace(Vec::new(self.alloc));
        if is_made {
            self.set_late(true);
            for call in waiting.as_slice() {
                // for the program it has returned before
                let _ = self.make_call(call);
            }
            self.set_late(false);
        }
    }

    /// A call comes that changes files: it is made now, or not at all, or late.
    fn ask(&self, call: Call) -> io::Result<()> {
        match self.comes(self.act_of(&call)) {
            Turn::Never => Ok(()),
            Turn::Later => self.keep(call),
            Turn::Now => {
                let made = self.make_call(&call);
                // without a link the program goes on, and what waits goes on waiting
                if made.is_ok() || !call.is_link() {
                    self.catch_up(made.is_ok());
                }
                made?;
                self.record_deed(Deed::Changed(call))
            }
        }
    }

    /// Puts bytes over those of a file from there on.
    pub(crate) fn write(&self, number: usize, at: u64, bytes: &[u8]) -> io::Result<()> {
        let bytes = copied(self.alloc, bytes)?;
        let at = at as usize;
        self.ask(Call::Write { number, at, bytes })
    }

    /// Gives a file a length.
    pub(crate) fn end(&self, number: usize, length: u64) -> io::Result<()> {
        let length = length as usize;
        self.ask(Call::End { number, length })
    }

    /// Syncs a file, or the folder.
    pub(crate) fn sync(&self, number: usize) -> io::Result<()> {
        self.ask(Call::Sync { number })
    }

    /// Makes a file without bytes at a path, at which there is none.
    pub(crate) fn make(&self, path: &str) -> io::Result<usize> {
        self.ask(Call::Make {
            path: text_of(self.alloc, path)?,
        })?;
        self.find(path)
    }

    /// Gives the file at a path another name besides, at which there is none.
    pub(crate) fn link(&self, from: &str, to: &str) -> io::Result<()> {
        let from = text_of(self.alloc, from)?;
        let to = text_of(self.alloc, to)?;
        self.ask(Call::Link { from, to })
    }

    /// Takes the name of a file away.
    pub(crate) fn remove(&self, path: &str) -> io::Result<()> {
        let path = text_of(self.alloc, path)?;
        self.ask(Call::Remove { path })
    }

    /// Gives the file at a path another name, in the place of the file that had it.
    pub(crate) fn rename(&self, from: &str, to: &str) -> io::Result<()> {
        let from = text_of(self.alloc, from)?;
        let to = text_of(self.alloc, to)?;
        self.ask(Call::Rename { from, to })
    }
}

// What is done while others read.
impl Machine {
    /// What the program does is recorded from now on. Nothing may happen to its calls.
    pub fn watch(&self) {
        self.record.set(Some(Record::new(self.alloc)));
    }

    /// What the program did since `watch`. Nothing is recorded any more.
    pub fn recorded(&self) -> Record {
        match self.record.replace(None) {
            Some(record) => record,
            None => Record::new(self.alloc),
        }
    }

    /// Records a deed, if deeds are recorded.
    fn record_deed(&self, deed: Deed) -> io::Result<()> {
        let Some(mut record) = self.record.replace(None) else {
            return Ok(());
        };
        let added = record.add(deed);
        self.record.set(Some(record));
        added
    }

    /// A machine with this disk.
    fn with_disk(&self, disk: Disk) -> Machine {
        let other = Machine::new(self.alloc);
        other.disk.set(disk);
        other
    }

    /// A machine with the files that this one holds, all synced, of the same numbers: there a record of what is done here can be
    /// done again.
    pub fn copy(&self) -> io::Result<Machine> {
        let disk = self.disk();
        let copied = disk.copy();
        self.disk.set(disk);
        Ok(self.with_disk(copied?))
    }

    /// The first deeds of a record are done here, of which there are so many. The program that runs then has the others done
    /// meanwhile: before each of its calls fewer than so many, by a seed.
    pub fn run_beside(&self, record: Record, count: usize, most: u64, seed: u64) -> io::Result<()> {
        let mut disk = self.disk();
        let mut done = Ok(());
        for number in 0..count {
            if let Some(Deed::Changed(call)) = record.deed(number) {
                done = done.and(disk.change(call));
            }
        }
        self.disk.set(disk);
        self.other.set(Other {
            record,
            next: count,
            most,
            random: Random::new(seed),
        });
        done
    }

    /// The record of `run_beside`. No other program goes on any more.
    pub fn end_beside(&self) -> Record {
        self.other.replace(Other::none(self.alloc)).record
    }

    /// The other program does its next deeds.
    fn go_on(&self) {
        let mut other = self.other.replace(Other::none(self.alloc));
        for _ in 0..other.random.below(other.most) {
            if let Some(Deed::Changed(call)) = other.record.deed(other.next) {
                // it could be done where it was recorded
                let _ = self.change(call);
            }
            other.next = other.next.saturating_add(1);
        }
        self.other.set(other);
    }
}

// Its streams.
impl Machine {
    /// Reads the input.
    pub(crate) fn read_input(&self, buf: &mut [u8]) -> io::Result<usize>
        ensures few { IfOk result (λ n. n ≤ length buf.new) }
    {
        let strike = self.next(false);
        if strike == Strike::Fails || strike == Strike::Stops {
            return Err(failed());
        }
        let mut run = self.run.get();
        let lines = run.random.below(run.lines).saturating_add(1);
        let input = self.input.replace(Vec::new(self.alloc));
        let left = rest(input.as_slice(), run.taken);
        let whole = lines_of(left, lines);
        let most = if strike == Strike::IsShort {
            whole.div_ceil(2)
        } else {
            whole
        };
        let count = take(front(left, most), 0, buf);
        self.input.set(input);
        run.taken = run.taken.saturating_add(count);
        self.run.set(run);
        Ok(count)
    }

    /// Prints bytes.
    fn print(&self, bytes: &[u8]) -> io::Result<()> {
        let mut output = self.output.replace(Vec::new(self.alloc));
        let printed = output.extend_from_slice(bytes);
        self.output.set(output);
        printed?;
        self.record_deed(Deed::Printed(bytes.len()))
    }

    /// Prints bytes; how many of them.
    pub(crate) fn print_some(&self, bytes: &[u8]) -> io::Result<usize>
        ensures few { IfOk result (λ n. n ≤ length bytes.now) }
    {
        let count = match self.next(false) {
            Strike::Passes => bytes.len(),
            Strike::IsShort => bytes.len() / 2 + bytes.len() % 2,
            Strike::Fails | Strike::Stops => {
                self.catch_up(false);
                return Err(failed());
            }
        };
        let printed = self.print(&bytes[..count]);
        self.catch_up(printed.is_ok());
        printed?;
        Ok(count)
    }

    /// Prints all bytes.
    pub(crate) fn print_all(&self, bytes: &[u8]) -> io::Result<()> {
        let passes = self.pass();
        let printed = if passes.is_ok() {
            self.print(bytes)
        } else {
            passes
        };
        self.catch_up(printed.is_ok());
        printed
    }

    /// A machine with the files that this one holds, all synced, under these paths.
    pub fn with_files(&self, paths: &[&str]) -> io::Result<Machine> {
        let disk = self.disk();
        let another = disk.another();
        self.disk.set(disk);
        let other = self.with_disk(another);
        for path in paths {
            if self.find(path).is_ok() {
                let bytes = self.bytes_of(path)?;
                other.put_file(path, bytes.as_slice())?;
            }
        }
        Ok(other)
    }

    /// A copy of bytes, such as an input.
    pub fn copy_of(&self, bytes: &[u8]) -> io::Result<Vec<u8>> {
        copied(self.alloc, bytes)
    }
}
