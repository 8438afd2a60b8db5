//! A log: its file, and how far its commits reach.
ghost use Rattle.std.specs.Prelude.{◌≡◌, ◌↔◌, ◌+◌, ◌≤◌, IsTrue, length, true};
ghost use Rattle.image_log.specs.Recovered.{IsAtRest};
ghost use Rattle.image_log.specs.Marks.{NoneTouched};
ghost use Rattle.std.proofs.Props.{props};

use crate::appending::append;
use crate::blocks::BLOCK;
use crate::committing::append_commit;
use crate::laying_out::lay_out;
use crate::log_file::LogFile;
use crate::log_room::LogRoom;
use std::alloc::Global;
use std::io;

/// How many blocks a log has room for. The mark's block stands after them.
pub const BLOCKS: usize = 1024;

/// How many bytes a log has.
pub(crate) const LOG_BYTES: usize = BLOCK * (BLOCKS + 1);

/// How many blocks a commit takes at most, with all 683 sectors.
pub const MOST: usize = 46;

/// A log of a disk's images. Its first commit is the base: all sectors of the image that it begins with.
#[derive(Drop)]
pub struct Log<F: LogFile> {
    file: F,
    end: usize,
    closed: bool,
    // the blocks of a commit while it is made
    room: Vec<[u8; 4096]>,
    ghost ends: { end ≤ 1024 },
    ghost rooms: { length room.items ≡ 46 },
    ghost rest: { (closed ≡ true → ⊥) → IsAtRest F.history file end } by { Prim.hlevel props },
}

/// Whether no sector was touched.
pub fn none_touched(touched: &[bool; 683]) -> bool
    ensures none { IsTrue result → NoneTouched touched.now }
    ensures all { NoneTouched touched.now → IsTrue result }
{
    !touched.contains(&true)
}

impl<F: LogFile> Log<F> {
    ghost use Rattle.std.specs.Prelude.{◌⊎◌, [], IfErr, IfOk, IsErr, OnErr, OnOk, Some, List, ℕ, false};
    ghost use Rattle.d64_image.specs.Images.{Image};
    ghost use Rattle.image_log.specs.Files.{LeavesOnly, SeesOnly};
    ghost use Rattle.image_log.specs.Logs.{StandsFor, is_closed, log_end, log_file, takes_none};
    ghost use Rattle.image_log.specs.Recovered.{IsLeft, is_marked};
    ghost use Rattle.image_log.specs.Marks.{Covers};

    /// Makes a log of an empty file in this room: zeros, synced, and then the image as its base, synced. At an error the
    /// file failed, and is returned: it is no log yet, or one with this base.
    pub fn begin_in(
        room: LogRoom,
        mut file: F,
        image: &[[u8; 256]],
    ) -> Result<Log<F>, (io::Error, F)>
        requires sized { length image.now ≡ 683 }
        requires empty { (f : List ℕ) → F.history.held file ≡ Some f → f ≡ [] }
        ensures ok { IfOk result (λ log. F.history.held file ≡ Some [] → StandsFor log image.now image.now) }
        // it takes a commit, whatever sectors that has
        ensures room { IfOk result (λ log. takes_none log ≡ false) }
        // an error is returned only after a failure of the file
        ensures cause { IfErr result (λ e. F.history.has_failed e.1 ≡ true) }
    {
        let LogRoom { mut blocks } = room;
        if let Err(error) = lay_out(&mut file) {
            return Err((error, file));
        }
        match append_commit(&mut file, &mut blocks, 0, image, &[true; 683]) {
            Ok(end) => Ok(Log {
                file,
                end,
                closed: false,
                room: blocks,
            }),
            Err(error) => Err((error, file)),
        }
    }

    /// Makes a log of an empty file, as `begin_in` does, in memory that it takes. An error also if that is refused.
    pub fn begin(alloc: Global, file: F, image: &[[u8; 256]]) -> io::Result<Log<F>>
        requires sized { length image.now ≡ 683 }
        requires empty { (f : List ℕ) → F.history.held file ≡ Some f → f ≡ [] }
        ensures ok { IfOk result (λ log. F.history.held file ≡ Some [] → StandsFor log image.now image.now) }
        ensures room { IfOk result (λ log. takes_none log ≡ false) }
    {
        let Ok(room) = LogRoom::new(alloc) else {
            return Err(io::ErrorKind::OutOfMemory.into());
        };
        match Log::begin_in(room, file, image) {
            Ok(log) => Ok(log),
            Err((error, _)) => Err(error),
        }
    }

    /// Whether it is too full for one more commit, whatever sectors that has.
    pub fn is_full(&self) -> bool
        ensures { result ≡ false ↔ log_end self.now + 46 ≤ 1024 }
    {
        self.end + MOST > BLOCKS
    }

    /// Whether it takes no more commits: it was marked, or a call on its file failed.
    pub fn is_closed(&self) -> bool
        ensures { IsTrue result ↔ is_closed self.now }
    {
        self.closed
    }

    /// Makes the image as it is now durable, by the sectors that were touched since the last commit: `touched[i]` says
    /// that the sector with index i was. They are written after the commits before, and synced. If none was touched,
    /// nothing is written. At an error the log is closed, and stands for the image before or after.
    pub fn commit(&mut self, now: &[[u8; 256]], touched: &[bool; 683]) -> io::Result<()>
        requires sized { length now.now ≡ 683 }
        requires room { log_end self.old + 46 ≤ 1024 }
        // if every sector that changed was touched, a power loss after it leaves the image as it is now
        ensures ok { OnOk result ((start before : Image) → StandsFor self.old start before
            → Covers touched.now before now.now → StandsFor self.new start now.now) }
        // and one at any moment leaves the image before the commit or after it, with the same base and no mark
        ensures any_moment { (start before : Image) → StandsFor self.old start before → Covers touched.now before now.now
            → LeavesOnly F.history (log_file self.old) (log_file self.new)
            (λ c. IsLeft start before now.now c × (is_marked c ≡ false)) }
        // a read during the call, each byte of which is as before or as after it, finds one of these too
        ensures beside { OnOk result ((start before : Image) → StandsFor self.old start before
            → Covers touched.now before now.now → SeesOnly F.history (log_file self.old) (log_file self.new)
            (λ c. IsLeft start before now.now c × (is_marked c ≡ false))) }
        ensures opened { OnOk result (is_closed self.new → ⊥) }
        ensures refused { is_closed self.old → IsErr result × (log_file self.new ≡ log_file self.old) }
        ensures quiet { NoneTouched touched.now → self.new ≡ self.old }
        ensures err { OnErr result (is_closed self.new) }
        ensures cause { OnErr result (is_closed self.old ⊎ (F.history.has_failed (log_file self.new) ≡ true)) }
    {
        if self.closed {
            return Err(io::ErrorKind::Other.into());
        }
        if none_touched(touched) {
            return Ok(());
        }
        self.closed = true;
        let n = append_commit(&mut self.file, &mut self.room, self.end, now, touched)?;
        self.end += n;
        self.closed = false;
        Ok(())
    }

    /// Marks that from here on the image is copied into its own file, and closes the log.
    pub fn mark(&mut self) -> io::Result<()>
        ensures marked { OnOk result ((start now : Image) → StandsFor self.old start now
            → (c : List ℕ) → F.history.may_leave (log_file self.new) c → is_marked c ≡ true) }
        // a power loss at any moment leaves this image and this base
        ensures any_moment { (start now : Image) → StandsFor self.old start now
            → LeavesOnly F.history (log_file self.old) (log_file self.new) (IsLeft start now now) }
        ensures closed { is_closed self.new }
        ensures refused { is_closed self.old → IsErr result × (log_file self.new ≡ log_file self.old) }
        ensures cause { OnErr result (is_closed self.old ⊎ (F.history.has_failed (log_file self.new) ≡ true)) }
    {
        if self.closed {
            return Err(io::ErrorKind::Other.into());
        }
        self.closed = true;
        append(&mut self.file, BLOCK * BLOCKS, &[1])
    }

    /// Its file.
    pub fn file(&self) -> &F
        ensures { result.now ≡ log_file self.now }
    {
        &self.file
    }

    /// Its file. The log is over.
    pub fn into_file(self) -> F
        ensures { result ≡ log_file self }
    {
        let Log { file, .. } = self;
        file
    }

    /// Its file, and the room for another log. The log is over.
    pub fn into_parts(self) -> (F, LogRoom)
        ensures { result.0 ≡ log_file self }
    {
        let Log { file, room, .. } = self;
        (file, LogRoom { blocks: room })
    }
}
