//! Playing a script on the shop of the image at a path, over a log beside it.
ghost use Rattle.std.specs.Prelude.{◌≡◌, ℕ, Bool, IfErr, IfOk, IsOk, None, OnOk, Some, vec_items};
ghost use Rattle.d64_image.specs.Memory.{sectors_in};
ghost use Rattle.host_session.specs.shop.Shop.{IsShop, Shop};
ghost use Rattle.line_server.specs.Scripts.{crlf_text};
ghost use Rattle.shop_jobs.specs.JobOutputs.{ArePassed, lines_over};
ghost use Rattle.shop_jobs.specs.KeptServices.{IsPlayKept, IsServedOrNot, IsServiceKept};
ghost use Rattle.shop_jobs.specs.ServiceEnds.{IsLoggedEnd, IsRefusedAt};
ghost use Rattle.shop_jobs.specs.Replies.{IsShopAt, AreAnswered, AreReplyLines, IsShopOf};
ghost use Rattle.opened_files.specs.HostFiles.{OfText};
ghost use Rattle.shop_jobs.specs.ShopRuns.{IsPlayedOverLog};
ghost use Rattle.shop_jobs.specs.LandedRuns.{HasLanded, IsDoneAndLanded};
ghost use Rattle.shop_jobs.specs.LoggedPlays.{IsLoggedPlay};
ghost use Rattle.opened_files.specs.Losses.{IsEndOfRun};
ghost use Rattle.image_log.specs.life.HostLogs.{asked_logs, untagged_folders};
ghost use Rattle.image_log.specs.life.LiveLogs.{of_live};
ghost use Rattle.line_server.specs.logged.Serves.{shop_behind};
ghost use Rattle.line_text.specs.scripts.Lines.{first_reset, lines};
ghost use Rattle.opened_files.specs.Rights.{MayChangeImage, MayReadText};
ghost use Rattle.image_file.specs.paths.Standing.{AreOf};

use crate::job_outputs::JobOutput;
use crate::landing_logs::landed_end;
use crate::logged_plays::play_logged;
use crate::reply_lines::LentOutput;
use crate::serving_logs::{begun_beside, cleared_end};
use crate::watched_files::{name_of, served_end};
use command_faults::CommandFault;
use disk_layout::Fault;
use image_file::{EndedFile, HostFiles, Locks, NameStays};
use image_log::{HostLogs, LiveLog, LogFile, LogFolder, LogNames};
use line_server::BatchReplies;
use line_text::first_reset_line;
use opened_files::{Loss, opened_alone, run_end, script_to_play, see_size};
use std::alloc::Global;
use std::fs::OpenFile;

/// Plays a script without resets on the shop of this image, over a log that was begun with it. Then the log is landed,
/// and the folder returned; but it is left where it is if the image's file has gone, or a commit failed.
fn play_begun<L, D, N, T>(
    alloc: Global,
    image: &[u8],
    script: &[u8],
    log: LiveLog<L, D>,
    name: &N,
    out: &mut T,
) -> (Option<D>, Result<Option<Fault>, CommandFault>)
where
    L: LogFile,
    D: LogFolder<L> + Drop,
    N: NameStays,
    T: BatchReplies<LiveLog<L, D>>,
    requires plain { first_reset (lines script.now) ≡ None }
    ensures played { (gone : Bool) × IsDoneAndLanded D.history (λ left ended. IsEndOfRun
        (IsLoggedPlay (of_live D.history) T.output image.now script.now log left out.old out.new) ended)
        gone result.0 result.1 }
    // done, IMAGE is the shop after all messages
    ensures landed { (s : Shop) → IsShop (sectors_in image.now) s
        → (of_live D.history).stands_for log (sectors_in image.now) → IsOk result.1
        → HasLanded D.history (shop_behind s (lines script.now)) result.0 }
{
    let mut log = log;
    let ended = run_end(play_logged(alloc, image, script, &mut log, out));
    landed_end(log, served_end(ended, !name.is_still_named()))
}

/// Plays a script as `play_begun` does, and prints its replies.
fn play_printed<L, D, N, W>(
    alloc: Global,
    image: &[u8],
    script: &[u8],
    log: LiveLog<L, D>,
    name: &N,
    out: &mut W,
) -> Result<Option<Fault>, CommandFault>
where
    L: LogFile,
    D: LogFolder<L> + Drop,
    N: NameStays,
    W: JobOutput,
    requires plain { first_reset (lines script.now) ≡ None }
    ensures quiet { IsLoggedEnd out.old out.new result }
    ensures lines { AreReplyLines W.contents out.old out.new }
    ensures done { OnOk result (AreAnswered W.contents (IsShopOf image.now) (lines script.now) out.old out.new) }
    ensures kept { IsServedOrNot D.history image.now (Some (crlf_text (lines script.now))) log
        (ArePassed (lines_over W.contents (W.replies _)) out.old out.new) out.old out.new result }
{
    let mut printer = LentOutput::new(out);
    let (_, ended) = play_begun(alloc, image, script, log, name, &mut printer);
    ended
}

/// The bytes of the script at a path, which is to be played on the image in this file. `ImageSize` if the file hasn't as
/// many bytes as an image; `BadLine` if a line begins with `@`: the first such line.
fn plain_script<F, R>(rt: &R, path: &str, image: &F) -> Result<Vec<u8>, CommandFault>
where
    F: OpenFile,
    R: HostFiles + Input + AllocGlobal,
    requires { MayReadText R.rights rt.now path.now }
    ensures plain { IfOk result (λ script. first_reset (lines (vec_items script)) ≡ None) }
    ensures read { OfText R.stands rt.now path.now (λ all. IfOk result (λ script. vec_items script ≡ all)) }
    ensures reset { OfText R.stands rt.now path.now (λ all. (n : ℕ) → first_reset (lines all) ≡ Some n
        → IfErr result (IsRefusedAt n)) }
{
    let script = script_to_play(rt, path)?;
    see_size(image)?;
    match first_reset_line(script.as_slice()) {
        None => Ok(script),
        Some(line) => Err(CommandFault::ScriptLine(line)),
    }
}

/// Plays a script without resets on the shop of the image at a path, over a log beside it. This is the image's file, which
/// this program has alone.
fn play_beside<F, R, W>(
    rt: &R,
    path: &str,
    mut image: F,
    script: &[u8],
    loss: Loss,
    out: &mut W,
) -> Result<Option<Fault>, CommandFault>
where
    F: EndedFile + Locks + OpenFile + Drop,
    R: HostFiles<File = F> + HostLogs + AllocGlobal,
    W: JobOutput,
    requires owned { F.IsOwned image }
    requires shared { F.IsShared image }
    requires bytes { AreOf R.stands rt.now path.now (F.unread image) }
    requires image { MayChangeImage R.rights rt.now path.now }
    requires plain { first_reset (lines script.now) ≡ None }
    ensures quiet { IsLoggedEnd out.old out.new result }
    ensures lines { AreReplyLines W.contents out.old out.new }
    ensures done { OnOk result (AreAnswered W.contents (IsShopAt R.stands rt.now path.now) (lines script.now)
        out.old out.new) }
    ensures kept { IsServiceKept R.HostFiles F.Read F.Seek (asked_logs R.logs) (untagged_folders R.folders) R.stands R.rights R.traces W.contents W.replies
        (Some (crlf_text (lines script.now))) rt.now path.now out.old out.new result }
{
    let alloc = rt.alloc();
    let name = name_of(rt, path, &image)?;
    let names = LogNames::of(rt, alloc, path)?;
    let (bytes, log) = begun_beside(rt, path, &names, &mut image, loss, Loss::Accepted)?;
    let ended = play_printed(alloc, bytes.as_slice(), script, log, &name, out);
    cleared_end(rt, path, &image, &names, ended)
}

/// Plays the script at a path on the shop of the image at another, over a log beside the image. Other programs may read
/// the image meanwhile, by its log, and none may write it. At the end the log is landed: the image is the shop then. If
/// the path doesn't lead to the image's file then, or the file has another length, it ends with `Device`, and the log
/// stays. A script with a line that begins with `@` is refused before anything is written; so is an image whose log is
/// away, unless that loss is accepted (`LogAway`).
pub fn do_logged_playing<F, R, W>(
    rt: &R,
    path: &str,
    script: &str,
    loss: Loss,
    out: &mut W,
) -> Result<Option<Fault>, CommandFault>
where
    F: EndedFile + Locks + OpenFile + Drop,
    R: HostFiles<File = F> + HostLogs + Input + AllocGlobal,
    W: JobOutput,
    requires image { MayChangeImage R.rights rt.now path.now }
    requires script { MayReadText R.rights rt.now script.now }
    ensures told { IsPlayedOverLog R.rights R.stands W.contents rt.now path.now script.now out.old out.new result }
    ensures kept { IsPlayKept R.HostFiles F.Read F.Seek (asked_logs R.logs) (untagged_folders R.folders) R.stands R.rights R.traces W.contents W.replies rt.now
        path.now script.now out.old out.new result }
{
    let image = opened_alone(rt, path)?;
    let script = plain_script(rt, script, &image)?;
    play_beside(rt, path, image, script.as_slice(), loss, out)
}
