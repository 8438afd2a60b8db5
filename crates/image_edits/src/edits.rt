//! A change of the files of the image at a path, and the bytes that it takes of a file of the host.
ghost use Rattle.std.specs.Prelude.{◌≡◌, ◌⊎◌, IfErr, IfOk, take, vec_items};
ghost use Rattle.command_faults.specs.declared.faults.CommandFault.TheVariants.{NoMemory};
ghost use Rattle.disk_changes.specs.Changes.{IsFit};
ghost use Rattle.image_edits.specs.Columns.{text_in};
ghost use Rattle.image_edits.specs.Sources.{IsSourceFor};
ghost use Rattle.opened_files.specs.HostFiles.{IsUnbegun, IsUnread, OfImage, OfText};
ghost use Rattle.image_edits.specs.EditRuns.{IsEditOver};
ghost use Rattle.opened_files.specs.Losses.{IsAwayFault, IsNear};
ghost use Rattle.opened_files.specs.Rights.{MayChangeImage, MayReadImage, MayReadText};
ghost use Rattle.image_edits.specs.EditRights.{MayEdit, MayReadSource};
ghost use Rattle.image_edits.specs.declared.effect.Effect.TheVariants.{Printed, Written};
ghost use Rattle.image_log.specs.life.Tags.{SaysLogAway};

use crate::changing::{change_end, change_taken, image_to_change};
use crate::containers::file_at;
use crate::cvts::cvt_at;
use crate::effect::Effect;
use command_faults::CommandFault;
use disk_changes::{Change, ChangeKind, Columns, plain_lines};
use disk_layout::Fault;
use folder_changes::{HostImages, show_change};
use image_file::{EndedFile, HostFiles, Locks};
use opened_files::{Loss, image_at, script_to_play, see_changeable, see_log_away};
use std::alloc::Global;
use std::fs::OpenFile;
use std::io::{Read, Write};

/// The text with one column for each record; typed lines have one. `NoMemory` if there was none for it.
fn one_column(alloc: Global, columns: Columns, text: Vec<u8>) -> Result<Vec<u8>, CommandFault>
    ensures ok { IfOk result (λ plain. vec_items plain ≡ text_in columns (vec_items text)) }
    ensures err { IfErr result (λ refusal. refusal ≡ NoMemory) }
{
    match columns {
        Columns::One | Columns::Text(_) => Ok(text),
        Columns::Several(form) => match plain_lines(alloc, form, text.as_slice()) {
            Ok(plain) => Ok(plain),
            Err(_) => Err(CommandFault::NoMemory),
        },
    }
}

/// The records at a path, or of standard input, with one column each.
fn records_at<R>(rt: &R, path: &str, columns: Columns) -> Result<Vec<u8>, CommandFault>
where
    R: HostFiles + Input + AllocGlobal,
    requires { MayReadText R.rights rt.now path.now }
    ensures read { OfText R.stands rt.now path.now (λ all. IfOk result (λ text. vec_items text ≡ text_in columns all)) }
    ensures err { IfErr result IsUnread }
{
    let text = script_to_play(rt, path)?;
    one_column(rt.alloc(), columns, text)
}

/// The bytes that a change takes of a file of the host; none if it takes none.
fn source_for<F, R>(rt: &R, kind: &ChangeKind<'_>) -> Result<Vec<u8>, CommandFault>
where
    F: Locks + OpenFile + Drop,
    R: HostFiles<File = F> + Input + AllocGlobal,
    requires { MayReadSource R.rights rt.now kind.now }
    ensures read { IfOk result (λ source. IsSourceFor R.rights R.stands rt.now kind.now (vec_items source)) }
    ensures err { IfErr result IsUnbegun }
{
    match *kind {
        ChangeKind::Put { file, .. } => file_at(rt, file),
        ChangeKind::PutGeos { file, .. } => cvt_at(rt, file),
        ChangeKind::CopyFile { from, .. } => image_at(rt, from),
        ChangeKind::Store {
            records,
            columns,
            ..
        } => records_at(rt, records, columns),
        _ => Ok(Vec::new(rt.alloc())),
    }
}

/// Changes the files of the image at a path, all or nothing, and prints the change's text.
fn edit_written<F, R, W>(
    rt: &R,
    path: &str,
    kind: &ChangeKind<'_>,
    loss: Loss,
    out: &mut W,
) -> Result<Option<Fault>, CommandFault>
where
    F: EndedFile + Locks + OpenFile + Drop,
    R: HostFiles<File = F> + HostImages + Input + AllocGlobal,
    W: Write,
    requires image { MayChangeImage R.rights rt.now path.now }
    requires source { MayReadSource R.rights rt.now kind.now }
    requires fit { IsFit kind.now }
    ensures { IsEditOver R.rights R.stands R.changed W.contents rt.now Written path.now kind.now loss out.old out.new result }
{
    let (image, file) = image_to_change(rt, path, loss)?;
    let source = source_for(rt, kind)?;
    let what = Change {
        kind,
        loss,
        source: source.as_slice(),
    };
    change_taken(rt, path, image.as_slice(), file, &what, out)
}

/// The bytes of the image at a path, as its shop is now, or of standard input. `TwoNames` if a change of it would be refused
/// for that; `LogAway` if its log has the rest, isn't there, and no loss is accepted.
fn image_to_show<F, R>(rt: &R, path: &str, loss: Loss) -> Result<Vec<u8>, CommandFault>
where
    F: Locks + OpenFile + Drop,
    R: HostFiles<File = F> + Input + AllocGlobal,
    requires { MayReadImage R.rights rt.now path.now }
    ensures read { OfImage R.rights R.stands rt.now path.now
        (λ all. IfOk result (λ image. vec_items image ≡ take 174849 all)) }
    ensures near { IfOk result (λ image. IsNear loss (vec_items image)) }
    ensures err { IfErr result (λ refusal. IsUnbegun refusal ⊎ IsAwayFault loss
        (OfImage R.rights R.stands rt.now path.now (λ all. SaysLogAway (take 174849 all))) refusal) }
{
    see_changeable(rt, path)?;
    let image = image_at(rt, path)?;
    see_log_away(image.as_slice(), loss)?;
    Ok(image)
}

/// Prints what a change of the image at a path would print, and leaves the image as it is.
fn edit_shown<F, R, W>(
    rt: &R,
    path: &str,
    kind: &ChangeKind<'_>,
    loss: Loss,
    out: &mut W,
) -> Result<Option<Fault>, CommandFault>
where
    F: Read + Locks + OpenFile + Drop,
    R: HostFiles<File = F> + HostImages + Input + AllocGlobal,
    W: Write,
    requires image { MayReadImage R.rights rt.now path.now }
    requires source { MayReadSource R.rights rt.now kind.now }
    requires fit { IsFit kind.now }
    ensures { IsEditOver R.rights R.stands R.changed W.contents rt.now Printed path.now kind.now loss out.old out.new result }
{
    let image = image_to_show(rt, path, loss)?;
    let source = source_for(rt, kind)?;
    let what = Change {
        kind,
        loss,
        source: source.as_slice(),
    };
    change_end(show_change(rt.alloc(), image.as_slice(), &what, out))
}

/// Changes the files of the image at a path, all or nothing, and prints the change's text; or only prints it.
pub fn do_edit<F, R, W>(
    rt: &R,
    path: &str,
    kind: &ChangeKind<'_>,
    loss: Loss,
    effect: Effect,
    out: &mut W,
) -> Result<Option<Fault>, CommandFault>
where
    F: EndedFile + Read + Locks + OpenFile + Drop,
    R: HostFiles<File = F> + HostImages + Input + AllocGlobal,
    W: Write,
    requires image { MayEdit R.rights rt.now effect path.now }
    requires source { MayReadSource R.rights rt.now kind.now }
    requires fit { IsFit kind.now }
    ensures { IsEditOver R.rights R.stands R.changed W.contents rt.now effect path.now kind.now loss out.old out.new result }
{
    match effect {
        Effect::Written => edit_written(rt, path, kind, loss, out),
        Effect::Printed => edit_shown(rt, path, kind, loss, out),
    }
}
