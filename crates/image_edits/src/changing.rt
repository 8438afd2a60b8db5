//! The image at a path, changed all or nothing.
ghost use Rattle.std.specs.Prelude.{◌≡◌, ◌⊎◌, IfErr, IfOk, string_bytes, take, true, vec_items};
ghost use Rattle.disk_changes.specs.Changes.{IsChanged, IsFit, IsRefused};
ghost use Rattle.image_edits.specs.Changes.{IsChangeEnd, IsChangedAt, as_change};
ghost use Rattle.image_file.specs.paths.Rights.{Look, May};
ghost use Rattle.opened_files.specs.HostFiles.{IsUnbegun, OfWritten, RunEnds};
ghost use Rattle.opened_files.specs.Losses.{IsAwayFault};
ghost use Rattle.opened_files.specs.Rights.{MayChangeImage};
ghost use Rattle.image_log.specs.life.Tags.{SaysLogAway};

use command_faults::CommandFault;
use disk_changes::Change;
use disk_layout::Fault;
use folder_changes::HostImages;
use image_file::{EndedFile, HostFiles, Locks};
use image_log::{HostLogs, LogNames};
use opened_files::{Loss, opened_and_landed, read_synced, see_untagged};
use std::fs::OpenFile;
use std::io::Write;

/// What came of a change, as a job's end: so many sectors are left.
pub fn change_end(ended: Result<u16, CommandFault>) -> Result<Option<Fault>, CommandFault>
    ensures { result ≡ as_change ended }
{
    match ended {
        Ok(0) => Ok(None),
        Ok(left) => Err(CommandFault::StraysLeft(left)),
        Err(fault) => Err(fault),
    }
}

/// The bytes of the image at a path and its file, which this program has alone. No log is beside it, and all is synced.
/// `LogAway` if its log has the rest, isn't there, and no loss is accepted.
pub(crate) fn image_to_change<F, R>(
    rt: &R,
    path: &str,
    loss: Loss,
) -> Result<(Vec<u8>, F), CommandFault>
where
    F: EndedFile + Locks + OpenFile + Drop,
    R: HostFiles<File = F> + HostLogs + AllocGlobal,
    requires image { MayChangeImage R.rights rt.now path.now }
    ensures owned { IfOk result (λ taken. F.IsOwned taken.1) }
    ensures read { OfWritten R.stands rt.now path.now
        (λ all. IfOk result (λ taken. vec_items taken.0 ≡ take 174849 all)) }
    ensures whole { IfOk result (λ taken. ¬ (SaysLogAway (vec_items taken.0))) }
    ensures err { IfErr result (λ refusal. IsUnbegun refusal
        ⊎ IsAwayFault loss (OfWritten R.stands rt.now path.now (λ all. SaysLogAway (take 174849 all))) refusal) }
{
    let mut file = opened_and_landed(rt, path, loss)?;
    let image = read_synced(rt.alloc(), &mut file)?;
    see_untagged(image.as_slice(), loss)?;
    Ok((image, file))
}

/// The names of the image at a path and of its log.
fn names_at<R: HostFiles + AllocGlobal>(rt: &R, path: &str) -> Result<LogNames, CommandFault>
    requires { May R.rights rt.now Look path.now }
    ensures leads { IfOk result (λ names. R.rights.leads rt.now path.now (string_bytes names.image) ≡ true) }
    ensures err { IfErr result IsUnbegun }
{
    Ok(LogNames::of(rt, rt.alloc(), path)?)
}

/// Changes the image at a path, whose bytes and file these are, all or nothing, and prints the change's text.
pub(crate) fn change_taken<F, R, W>(
    rt: &R,
    path: &str,
    image: &[u8],
    file: F,
    what: &Change<'_>,
    out: &mut W,
) -> Result<Option<Fault>, CommandFault>
where
    F: EndedFile + Locks + OpenFile + Drop,
    R: HostFiles<File = F> + HostImages + AllocGlobal,
    W: Write,
    requires image { MayChangeImage R.rights rt.now path.now }
    requires owned { F.IsOwned file }
    requires fit { IsFit what.now.kind.now }
    ensures { RunEnds out.old out.new result (IsChangeEnd W.contents
        (λ made. IsChanged what.now image.now made × IsChangedAt R.rights R.changed rt.now path.now image.now made)
        (IsRefused what.now image.now) out.old out.new result) }
{
    let names = names_at(rt, path)?;
    let ended = rt.change_at(rt.alloc(), &names, file, image, what, out)?;
    change_end(ended)
}
