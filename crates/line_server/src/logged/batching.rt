//! A shop served over a log.
ghost use Rattle.std.specs.Prelude.{◌≡◌, ◌≤◌, length, vec_capacity};
ghost use Rattle.d64_image.specs.declared.mem_disk.MemDisk.{MemDisk};
ghost use Rattle.line_server.specs.Batches.{texts_of};
ghost use Rattle.host_session.specs.runs.Loops.{with_disk};
ghost use Rattle.line_server.specs.logged.Batches.{HasOpened, IsBatchServed, IsServedSo};
ghost use Rattle.line_server.specs.logged.Serves.{IsServedOver};

use crate::batches::BatchSource;
use crate::logged::handling::handle_batch;
use crate::logged::keeping::commit_changes;
use crate::logged::reporting::{BatchReplies, report_all};
use crate::logged::room::Room;
use arrayvec::ArrayVec;
use d64_image::MemDisk;
use host_session::{LoopFault, Next, Session};
use image_log::{ImageLog, TouchedDisk};
use request_cards::Reply;

/// Handles the lines that the room has, commits what they came to, and then reports their replies.
fn serve_batch<L: ImageLog, T: BatchReplies<L>>(
    session: &mut Session<TouchedDisk<MemDisk>>,
    log: &mut L,
    out: &mut T,
    lines: &[ArrayVec<u8, 40>],
    replies: &mut Vec<Reply>,
    kept: &mut [[u8; 256]],
) -> Result<(), LoopFault>
    requires few { length lines.now ≤ 512 }
    requires room { 512 ≤ vec_capacity replies.old }
    requires sized { length kept.old ≡ 683 }
    ensures served { IsBatchServed L.history T.output (texts_of lines.now) session.old session.new kept.old kept.new
        log.old log.new out.old out.new result }
    ensures room { 512 ≤ vec_capacity replies.new }
    ensures sized { length kept.new ≡ 683 }
{
    handle_batch(session, lines, replies);
    let Ok(()) = commit_changes(session.disk(), kept, log) else {
        return Err(LoopFault::Device);
    };
    match report_all(out, replies.as_slice(), log, session.disk()) {
        Ok(()) => Ok(()),
        Err(_) => Err(LoopFault::Output),
    }
}

/// Serves an open session: what its opening mended is committed first, and then batch after batch is served.
fn serve_open<L: ImageLog, R: BatchSource, T: BatchReplies<L>>(
    session: &mut Session<TouchedDisk<MemDisk>>,
    log: &mut L,
    input: &mut R,
    out: &mut T,
    room: &mut Room,
) -> Result<(), LoopFault>
    ensures { (disk : MemDisk) → HasOpened disk session.old room.old.kept.items
        → IsServedSo L.history R.input T.output disk log.old log.new input.old input.new out.old out.new
        session.new result }
{
    let Ok(()) = commit_changes(session.disk(), room.kept.as_mut_slice(), log) else {
        return Err(LoopFault::Device);
    };
    for _ in 0..u64::MAX {
        let said = input.give_batch(&mut room.lines);
        let served = serve_batch(
            session,
            log,
            out,
            room.lines.as_slice(),
            &mut room.replies,
            room.kept.as_mut_slice(),
        );
        if let Err(fault) = served {
            return Err(fault);
        }
        match said {
            Next::Event => {}
            Next::End => return Ok(()),
            Next::Failed => return Err(LoopFault::Input),
        }
    }
    Err(LoopFault::Input)
}

/// The end, with the disk.
fn ended(disk: MemDisk, end: Result<(), LoopFault>) -> Result<MemDisk, (LoopFault, MemDisk)>
    ensures { result ≡ with_disk disk end }
{
    match end {
        Ok(()) => Ok(disk),
        Err(fault) => Err((fault, disk)),
    }
}

/// Serves the shop of a disk over a log that stands for the disk, until the input ends. It takes the lines at hand, 512
/// at most; if there is none, it waits for one, and everything before is durable and reported. It handles the lines in
/// memory, makes their changes durable by one commit, and then reports their replies in order and hands them on. What the
/// opening mended is the first commit. The clauses of `IsServedOver` say what comes of it. The disk is returned as it is
/// in memory.
///
/// `Open`: nothing was read, written or reported. `Input`: the input couldn't be read; the lines before stand, and were
/// reported. `Output`: the output failed; the lines stand, and of one batch at most some weren't reported. `Device`: the
/// log takes no more commits. Then the last batch, or what the opening mended, counts whole or not, and no reply of it
/// was reported.
///
/// It takes no memory but the room, and as much stack as an opening (docs/EMBED.md).
pub fn serve_batches<L: ImageLog, R: BatchSource, T: BatchReplies<L>>(
    disk: MemDisk,
    log: &mut L,
    input: &mut R,
    out: &mut T,
    room: &mut Room,
) -> Result<MemDisk, (LoopFault, MemDisk)>
    ensures { IsServedOver L.history R.input T.output disk log.old log.new input.old input.new out.old out.new result }
{
    let (now, _) = disk.bytes().as_chunks::<256>();
    room.kept.as_mut_slice().copy_from_slice(now);
    let mut session = match Session::open(TouchedDisk::new(disk)) {
        Ok(session) => session,
        Err((fault, disk)) => return Err((LoopFault::Open(fault), disk.into_inner())),
    };
    let end = serve_open(&mut session, log, input, out, room);
    ended(session.close().into_inner(), end)
}
