//! A log: its file, and how far its commits reach.
ghost use Rattle.std.specs.Prelude.{◌≡◌, ◌≤◌, length};

use crate::appending::append;
use crate::laying_out::lay_out;
use crate::log_room::BlockRoom;
use image_log::{BLOCK, BLOCKS, MOST, fill, none_touched};
use one_host::{Failure, Handle, Host};

/// A log of a disk's images. Its first commit is the base: all sectors of the image that it begins with.
#[derive(Drop)]
pub struct KeptLog {
    file: Handle,
    end: usize,
    // the blocks of a commit while it is made
    room: Vec<[u8; 4096]>,
    ghost ends: { end ≤ 1024 },
    ghost rooms: { length room.items ≡ 46 },
}

impl KeptLog {
    ghost use Rattle.std.specs.Prelude.{◌↔◌, ◌+◌, ℕ, IfOk, false};
    ghost use Rattle.d64_image.specs.Images.{Image};
    ghost use Rattle.one_host.specs.History.{HeldOnly, Known, Since, Tells, Until};
    ghost use Rattle.kept_logs.specs.Files.{IsEmpty, OnlyFile};
    ghost use Rattle.kept_logs.specs.Logs.{Commits, IsBegun, IsCommitted, IsMarked, MayCommit, Stands, log_end, log_file};

    /// Makes a log in this file, which was just made, in this room: zeros, synced, and then the image as its base, synced. At an
    /// error the file is no log yet, or one with this base.
    pub fn begin<H: Host>(
        host: &mut H,
        file: Handle,
        room: BlockRoom,
        image: &[[u8; 256]],
    ) -> Result<KeptLog, Failure>
        requires sized { length image.now ≡ 683 }
        ensures any_moment { Known H.history → (n : ℕ) → Since n (IsEmpty file.number) (H.history.world host.old)
            → HeldOnly H.history host.old host.new (Until n (OnlyFile (H.history.world host.old) file.number)) }
        ensures ok { Known H.history → (n : ℕ) → Since n (IsEmpty file.number) (H.history.world host.old)
            → IfOk result (λ log. Since n (IsBegun (H.history.world host.old) log image.now) (H.history.world host.new)) }
        ensures file { IfOk result (λ log. log_file log ≡ file.number) }
        // it takes a commit
        ensures room { IfOk result (λ log. log_end log + 46 ≤ 1024) }
        ensures told { Known H.history → Tells H.history host.old host.new result }
    {
        let BlockRoom { mut blocks } = room;
        lay_out(host, file)?;
        let n = fill(&mut blocks, image, &[true; 683], 0);
        append(host, file, 0, blocks[..n].as_flattened())?;
        Ok(KeptLog {
            file,
            end: n,
            room: blocks,
        })
    }

    /// Whether it is too full for one more commit, whatever sectors that has.
    pub fn is_full(&self) -> bool
        ensures { result ≡ false ↔ log_end self.now + 46 ≤ 1024 }
    {
        self.end + MOST > BLOCKS
    }

    /// Makes the image as it is now durable, by the sectors that were touched since the last commit: `touched[i]` says
    /// that the sector with index i was. They are written after the commits before, and synced. If none was touched,
    /// nothing is written. At an error the log is over; its file stands for the image before or after.
    pub fn commit<H: Host>(
        self,
        host: &mut H,
        now: &[[u8; 256]],
        touched: &[bool; 683],
    ) -> Result<KeptLog, Failure>
        requires sized { length now.now ≡ 683 }
        requires room { log_end self + 46 ≤ 1024 }
        ensures any_moment { Known H.history → (n : ℕ) (start before : Image)
            → Since n (MayCommit self start before touched.now now.now) (H.history.world host.old)
            → HeldOnly H.history host.old host.new (Until n (Commits (H.history.world host.old) self start before now.now)) }
        ensures ok { Known H.history → (n : ℕ) (start before : Image)
            → Since n (MayCommit self start before touched.now now.now) (H.history.world host.old)
            → IfOk result (λ log. Since n (IsCommitted (H.history.world host.old) self log start now.now) (H.history.world host.new)) }
        ensures file { IfOk result (λ log. log_file log ≡ log_file self) }
        ensures told { Known H.history → Tells H.history host.old host.new result }
    {
        if none_touched(touched) {
            return Ok(self);
        }
        let KeptLog {
            file,
            end,
            mut room,
        } = self;
        let n = fill(&mut room, now, touched, end);
        append(host, file, BLOCK * end, room[..n].as_flattened())?;
        Ok(KeptLog {
            file,
            end: end + n,
            room,
        })
    }

    /// Marks that from here on the image is copied into its own file. The log is over, and its file is given back. At an error the
    /// file has the mark or not; it stands for the image in any case.
    pub fn mark<H: Host>(self, host: &mut H) -> Result<Handle, Failure>
        ensures any_moment { Known H.history → (n : ℕ) (start now : Image) → Since n (Stands self start now) (H.history.world host.old)
            → HeldOnly H.history host.old host.new (Until n (Commits (H.history.world host.old) self start now now)) }
        ensures ok { Known H.history → (n : ℕ) (start now : Image) → Since n (Stands self start now) (H.history.world host.old)
            → IfOk result (λ file. Since n (IsMarked (H.history.world host.old) file.number now) (H.history.world host.new)) }
        ensures file { IfOk result (λ file. file.number ≡ log_file self) }
        ensures told { Known H.history → Tells H.history host.old host.new result }
    {
        let KeptLog { file, .. } = self;
        append(host, file, BLOCK * BLOCKS, &[1])?;
        Ok(file)
    }
}
