//! Playing the script at a path, on an image or without a disk.
ghost use Rattle.std.specs.Prelude.{◌≡◌, ◌⊎◌, IfErr, IfOk, IfSome, take, vec_items};
ghost use Rattle.image_file.specs.paths.Traces.{IsOpened};
ghost use Rattle.opened_files.specs.HostFiles.{IsUnbegun, OfText, OfWritten};
ghost use Rattle.opened_files.specs.Losses.{IsAwayFault};
ghost use Rattle.opened_files.specs.Rights.{MayChangeImage, MayReadText};
ghost use Rattle.shop_jobs.specs.ServiceEnds.{IsNearEnd};
ghost use Rattle.shop_jobs.specs.ShopRuns.{IsDryOver, IsLeftPlayed, IsPlayedOverFile};
ghost use Rattle.image_log.specs.life.Tags.{SaysLogAway};

use crate::durable_runs::play_durably;
use crate::reply_lines::WatchedReplies;
use crate::shop_runs::dry_run;
use crate::watched_files::{name_of, served_end};
use command_faults::CommandFault;
use disk_layout::Fault;
use image_file::{EndedFile, HostFiles, Locks, NameStays};
use image_log::HostLogs;
use opened_files::{Loss, opened_and_landed, read_owned, script_to_play, see_untagged};
use std::fs::OpenFile;
use std::io::Write;

/// The bytes of the image at a path, which this program has alone and beside which no log is, those of the script at another,
/// and the image's file. `LogAway` if the image's log has the rest, isn't there, and no loss is accepted.
fn taken_to_play<F, R>(
    rt: &R,
    path: &str,
    script: &str,
    loss: Loss,
) -> Result<(Vec<u8>, Vec<u8>, F), CommandFault>
where
    F: EndedFile + Locks + OpenFile + Drop,
    R: HostFiles<File = F> + HostLogs + Input + AllocGlobal,
    requires image { MayChangeImage R.rights rt.now path.now }
    requires script { MayReadText R.rights rt.now script.now }
    ensures opened { IfOk result (λ taken. IsOpened R.traces F.held rt.now path.now taken.2) }
    ensures held { IfOk result (λ taken. IfSome (F.held taken.2) (λ all. vec_items taken.0 ≡ take 174849 all)) }
    ensures read { OfWritten R.stands rt.now path.now
        (λ all. IfOk result (λ taken. vec_items taken.0 ≡ take 174849 all)) }
    ensures text { OfText R.stands rt.now script.now (λ all. IfOk result (λ taken. vec_items taken.1 ≡ all)) }
    ensures near { IfOk result (λ taken. ¬ (SaysLogAway (vec_items taken.0))) }
    ensures err { IfErr result (λ refusal. IsUnbegun refusal
        ⊎ IsAwayFault loss (OfWritten R.stands rt.now path.now (λ all. SaysLogAway (take 174849 all))) refusal) }
{
    let mut file = opened_and_landed(rt, path, loss)?;
    let image = read_owned(rt.alloc(), &mut file)?;
    see_untagged(image.as_slice(), loss)?;
    let script = script_to_play(rt, script)?;
    Ok((image, script, file))
}

/// Plays the script at a path on the image at another, over its file. `LogAway` if the image's log has the rest, isn't there,
/// and no loss is accepted. If the path doesn't lead to the image's file any more when the script was played, or the file has
/// another length, it ends with `Device`: that file has the shop.
pub fn do_playing<F, R, W>(
    rt: &R,
    path: &str,
    script: &str,
    loss: Loss,
    out: &mut W,
) -> Result<Option<Fault>, CommandFault>
where
    F: EndedFile + Locks + OpenFile + Drop,
    R: HostFiles<File = F> + HostLogs + Input + AllocGlobal,
    W: Write,
    requires image { MayChangeImage R.rights rt.now path.now }
    requires script { MayReadText R.rights rt.now script.now }
    ensures near { IsNearEnd R.stands rt.now path.now loss out.old out.new result }
    ensures played { IsPlayedOverFile R.rights R.stands W.contents rt.now path.now script.now out.old out.new result }
    ensures left { IsLeftPlayed F.WritesAt.own R.stands R.traces rt.now path.now script.now loss out.old out.new
        result }
{
    let (image, script, file) = taken_to_play(rt, path, script, loss)?;
    let name = name_of(rt, path, &file)?;
    let mut printer = WatchedReplies::new(out);
    let (_, ended) = play_durably(
        rt.alloc(),
        image.as_slice(),
        script.as_slice(),
        file,
        &mut printer,
    );
    served_end(ended, !name.is_still_named())
}

/// Prints the replies to the script at a path.
pub fn do_dry<R, W>(rt: &R, path: &str, out: &mut W) -> Result<Option<Fault>, CommandFault>
where
    R: HostFiles + Input + AllocGlobal,
    W: Write,
    requires { MayReadText R.rights rt.now path.now }
    ensures { IsDryOver R.stands W.contents rt.now path.now out.old out.new result }
{
    let script = script_to_play(rt, path)?;
    dry_run(script.as_slice(), out)
}
