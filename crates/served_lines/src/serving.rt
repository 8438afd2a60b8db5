//! A shop, served batch by batch.
ghost use Rattle.std.specs.Prelude.{◌≡◌, ◌≢◌, ◌≤◌, ℕ, IfErr, IfOk, Some, length, vec_capacity};
ghost use Rattle.d64_image.specs.Images.{Image};
ghost use Rattle.d64_image.specs.Memory.{disk_image};
ghost use Rattle.d64_image.specs.declared.mem_disk.MemDisk.{MemDisk};
ghost use Rattle.host_session.specs.declared.faults.OpenFault.{OpenFault};
ghost use Rattle.host_session.specs.session.Opening.{IsAShop};
ghost use Rattle.host_session.specs.shop.Shop.{IsShop, Shop};
ghost use Rattle.image_log.specs.Marks.{Covers};
ghost use Rattle.image_log.specs.Touched.{touched_of};
ghost use Rattle.kept_logs.specs.Logs.{Commits, IsCommitted, MayCommit, Stands, log_file};
ghost use Rattle.line_server.specs.Batches.{texts_of};
ghost use Rattle.line_server.specs.logged.Batches.{HasOpened};
ghost use Rattle.line_server.specs.logged.Memory.{image_of};
ghost use Rattle.one_host.specs.History.{HeldOnly, Known, Since, Until};
ghost use Rattle.one_host.specs.Worlds.{World};
ghost use Rattle.one_host.specs.declared.parts.Failure.{Failure};
ghost use Rattle.served_lines.specs.Services.{Answers, HasServed};
ghost use Rattle.served_lines.specs.Steps.{Pends, Serves};
ghost use Rattle.served_lines.specs.declared.faults.ServiceFault.TheVariants.{Host as OfHost, Open as OfOpening};
ghost use Rattle.served_lines.specs.declared.reading.LineInput.{LineInput};

use crate::faults::ServiceFault;
use crate::printing::{print_whole, write_replies};
use crate::room::ServiceRoom;
use arrayvec::ArrayVec;
use d64_image::MemDisk;
use host_session::Session;
use image_log::TouchedDisk;
use kept_logs::KeptLog;
use line_server::{handle_batch, take_changes};
use one_host::Host;
use request_cards::Reply;

/// Commits the session's disk as it is now to the log. `kept` is the image that was committed last, and becomes this one.
fn commit_changes<H: Host>(
    session: &Session<TouchedDisk<MemDisk>>,
    host: &mut H,
    log: KeptLog,
    kept: &mut [[u8; 256]],
) -> Result<KeptLog, ServiceFault>
    requires sized { length kept.old ≡ 683 }
    ensures sized { length kept.new ≡ 683 }
    ensures any_moment { Known H.history → (n : ℕ) (start : Image)
        → Since n (MayCommit log start kept.old (touched_of session.now.disk) (image_of session.now.disk)) (H.history.world host.old)
        → HeldOnly H.history host.old host.new (Until n (Commits (H.history.world host.old) log start kept.old (image_of session.now.disk))) }
    ensures ok { Known H.history → (n : ℕ) (start : Image)
        → Since n (MayCommit log start kept.old (touched_of session.now.disk) (image_of session.now.disk)) (H.history.world host.old)
        → IfOk result (λ more. Since n (IsCommitted (H.history.world host.old) log more start (image_of session.now.disk)) (H.history.world host.new)) }
    ensures file { IfOk result (λ more. log_file more ≡ log_file log) }
    ensures kept { Covers (touched_of session.now.disk) kept.old (image_of session.now.disk) → IfOk result (λ _. kept.new ≡ image_of session.now.disk) }
    ensures told { Known H.history → IfErr result (λ e. (f : Failure) → e ≡ OfHost f → H.history.failed host.new ≡ Some f) }
    ensures opened { IfErr result (λ e. (f : OpenFault) → e ≢ OfOpening f) }
{
    if log.is_full() {
        return Err(ServiceFault::Full);
    }
    let disk = session.disk();
    let (now, _) = disk.disk().bytes().as_chunks::<256>();
    let touched = take_changes(kept, now, disk.touched());
    Ok(log.commit(host, now, &touched)?)
}

/// Handles the lines of a batch in memory, commits what they came to, and then prints their replies.
fn serve_batch<H: Host>(
    session: &mut Session<TouchedDisk<MemDisk>>,
    host: &mut H,
    log: KeptLog,
    lines: &[ArrayVec<u8, 40>],
    replies: &mut Vec<Reply>,
    kept: &mut [[u8; 256]],
    text: &mut [u8],
) -> Result<KeptLog, ServiceFault>
    requires few { length lines.now ≤ 512 }
    requires room { 512 ≤ vec_capacity replies.old }
    requires sized { length kept.old ≡ 683 }
    requires text { length text.old ≡ 22528 }
    ensures room { 512 ≤ vec_capacity replies.new }
    ensures sized { length kept.new ≡ 683 }
    ensures text { length text.new ≡ 22528 }
    ensures any_moment { Known H.history → (n : ℕ) (s : Shop) (start image : Image) (v : World) (input : LineInput)
        → Since n (Pends s start image v session.old kept.old log input (texts_of lines.now)) (H.history.world host.old)
        → HeldOnly H.history host.old host.new (Until n (Answers s start image v (log_file log))) }
    ensures ok { Known H.history → (n : ℕ) (s : Shop) (start image : Image) (v : World) (input : LineInput)
        → Since n (Pends s start image v session.old kept.old log input (texts_of lines.now)) (H.history.world host.old)
        → IfOk result (λ more. Since n (Serves s start image v session.new kept.new more input) (H.history.world host.new)) }
    ensures file { IfOk result (λ more. log_file more ≡ log_file log) }
    ensures told { Known H.history → IfErr result (λ e. (f : Failure) → e ≡ OfHost f → H.history.failed host.new ≡ Some f) }
    ensures opened { IfErr result (λ e. (f : OpenFault) → e ≢ OfOpening f) }
{
    handle_batch(session, lines, replies);
    let log = commit_changes(session, host, log, kept)?;
    let end = write_replies(replies.as_slice(), text);
    print_whole(host, &text[..end])?;
    Ok(log)
}

/// Serves an open session: what its opening mended is committed first, and then batch after batch is served.
fn serve_open<H: Host>(
    session: &mut Session<TouchedDisk<MemDisk>>,
    host: &mut H,
    log: KeptLog,
    room: &mut ServiceRoom,
) -> Result<KeptLog, ServiceFault>
    ensures any_moment { Known H.history → (n : ℕ) (s : Shop) (start : Image) (disk : MemDisk) → HasOpened disk session.old room.old.kept.items
        → IsShop (disk_image disk) s → Since n (Stands log start (disk_image disk)) (H.history.world host.old)
        → HeldOnly H.history host.old host.new (Until n (Answers s start (disk_image disk) (H.history.world host.old) (log_file log))) }
    ensures ok { Known H.history → (n : ℕ) (s : Shop) (start : Image) (disk : MemDisk) → HasOpened disk session.old room.old.kept.items
        → IsShop (disk_image disk) s → Since n (Stands log start (disk_image disk)) (H.history.world host.old)
        → IfOk result (λ more. Since n (HasServed s start (H.history.world host.old) (image_of session.new.disk) more) (H.history.world host.new)) }
    ensures file { IfOk result (λ more. log_file more ≡ log_file log) }
    ensures told { Known H.history → IfErr result (λ e. (f : Failure) → e ≡ OfHost f → H.history.failed host.new ≡ Some f) }
    ensures opened { IfErr result (λ e. (f : OpenFault) → e ≢ OfOpening f) }
{
    room.input.clear();
    let mut log = commit_changes(session, host, log, room.kept.as_mut_slice())?;
    for _ in 0..u64::MAX {
        if !room.input.give_lines(host, &mut room.lines)? {
            return Ok(log);
        }
        log = serve_batch(
            session,
            host,
            log,
            room.lines.as_slice(),
            &mut room.replies,
            room.kept.as_mut_slice(),
            room.text.as_mut_slice(),
        )?;
    }
    Err(ServiceFault::TooMany)
}

/// Serves the shop of a disk over a log that stands for the disk, until the input ends. It takes the lines at hand, 512 at most; if
/// there is none, it waits for one, and everything before is durable and answered. It handles the lines in memory, makes their changes
/// durable by one commit, and then prints their replies. What the opening mended is the first commit. The disk is returned as it is in
/// memory.
///
/// Unless somebody else changes a file or a name, at each moment, also after an error, each reply of which a byte was printed has its
/// line in whatever a power loss leaves of the log then; and nothing is done but to the log's file, the input and the output.
///
/// `Open`: nothing was read, written or printed. `Host`: a call failed. `Full`: the log has no room for one more commit. `NotTaken`:
/// standard output took nothing. `TooMany`: 2^64 - 1 batches were served.
pub fn serve<H: Host>(
    disk: MemDisk,
    host: &mut H,
    log: KeptLog,
    room: &mut ServiceRoom,
) -> Result<(MemDisk, KeptLog), (ServiceFault, MemDisk)>
    ensures any_moment { Known H.history → (n : ℕ) (s : Shop) (start : Image) → IsShop (disk_image disk) s
        → Since n (Stands log start (disk_image disk)) (H.history.world host.old)
        → HeldOnly H.history host.old host.new (Until n (Answers s start (disk_image disk) (H.history.world host.old) (log_file log))) }
    ensures ok { Known H.history → (n : ℕ) (s : Shop) (start : Image) → IsShop (disk_image disk) s
        → Since n (Stands log start (disk_image disk)) (H.history.world host.old)
        → IfOk result (λ done. Since n (HasServed s start (H.history.world host.old) (disk_image done.0) done.1) (H.history.world host.new)) }
    ensures file { IfOk result (λ done. log_file done.1 ≡ log_file log) }
    ensures told { Known H.history → IfErr result (λ e. (f : Failure) → e.0 ≡ OfHost f → H.history.failed host.new ≡ Some f) }
    ensures opened { IfErr result (λ e. (f : OpenFault) → e.0 ≡ OfOpening f
        → (IsAShop (disk_image disk) → ⊥) × (host.new ≡ host.old) × (disk_image e.1 ≡ disk_image disk)) }
{
    let (now, _) = disk.bytes().as_chunks::<256>();
    room.kept.as_mut_slice().copy_from_slice(now);
    let mut session = match Session::open(TouchedDisk::new(disk)) {
        Ok(session) => session,
        Err((fault, disk)) => return Err((ServiceFault::Open(fault), disk.into_inner())),
    };
    match serve_open(&mut session, host, log, room) {
        Ok(log) => Ok((session.close().into_inner(), log)),
        Err(fault) => Err((fault, session.close().into_inner())),
    }
}
