//! Serving the shop of the image at a path, over a log beside it.
ghost use Rattle.std.specs.Prelude.{◌≡◌, ◌∷◌, [], Bool, IfErr, IfOk, IfSome, Some, flat_map, length, string_bytes, take, true, vec_items};
ghost use Rattle.shop_jobs.specs.ServiceEnds.{IsLoggedEnd};
ghost use Rattle.d64_image.specs.Images.{Image};
ghost use Rattle.d64_image.specs.Memory.{sectors_in};
ghost use Rattle.image_log.specs.life.Bringing.{RestsAlone};
ghost use Rattle.image_log.specs.life.Folders.{AllLeft, Folder, LeavesFolders};
ghost use Rattle.image_log.specs.life.Shops.{Gives, GivesOneOf};
ghost use Rattle.shop_jobs.specs.JobOutputs.{ArePassed, lines_over};
ghost use Rattle.shop_jobs.specs.KeptServices.{IsBegunIn, IsFolderAt, IsServedOrNot, IsServiceKept};
ghost use Rattle.shop_jobs.specs.LandedRuns.{IsDoneAndLanded};
ghost use Rattle.shop_jobs.specs.Replies.{IsShopAt, IsLoggedService, IsShopOf};
ghost use Rattle.opened_files.specs.HostFiles.{OfWritten};
ghost use Rattle.shop_jobs.specs.LoggedRuns.{IsLoggedRun};
ghost use Rattle.opened_files.specs.Losses.{IsEndOfRun, IsLossFault, MayBeLost};
ghost use Rattle.damaged_files.specs.declared.sides.planning.Loss.TheVariants.{Refused};
ghost use Rattle.shop_jobs.specs.WatchedFiles.{while_there};
ghost use Rattle.image_log.specs.life.HostLogs.{asked_logs, untagged_folders};
ghost use Rattle.image_log.specs.life.LiveLogs.{of_live};
ghost use Rattle.image_log.specs.life.Tags.{SaysLogAway};
ghost use Rattle.opened_files.specs.Rights.{MayChangeImage};
ghost use Rattle.image_file.specs.paths.Rights.{Look, May, MayWrite};
ghost use Rattle.image_file.specs.paths.Standing.{AreOf};
ghost use Rattle.image_log.specs.life.LogRights.{MayForget, MayKeepLogOf};

use crate::job_outputs::JobOutput;
use crate::landing_logs::landed_end;
use crate::logged_runs::serve_logged;
use crate::reply_lines::LentOutput;
use crate::watched_files::{RepliesWhileNamed, name_of, served_end};
use command_faults::CommandFault;
use disk_layout::Fault;
use image_file::{EndedFile, HostFiles, HostInput, Locks, NameStays, opened_to_change};
use image_log::{
    HostLogs, ImageFolder, LiveLog, LogFile, LogFolder, LogNames, LogRoom, SystemLog,
    forget_making, image_room, land_in,
};
use line_server::{BatchReplies, BatchSource};
use opened_files::{
    Loss, accept_loss, log_refusal, loss_refusal, opened_alone, read_shared, run_end,
    see_no_lost_log, see_size, see_untagged,
};
use std::alloc::Global;
use std::fs::OpenFile;
use std::io::BufReader;

/// The folder of the image at a path, which this program has alone. The image is tagged while a log has the rest of it.
fn folder_of<'a, F, R>(
    rt: &'a R,
    names: &'a LogNames,
    path: &str,
) -> Result<ImageFolder<'a, R>, CommandFault>
where
    F: EndedFile + OpenFile + Drop,
    R: HostFiles<File = F> + HostLogs + AllocGlobal,
    requires image { MayWrite R.rights rt.now path.now }
    requires log { MayKeepLogOf R.rights rt.now (string_bytes names.now.image) }
    requires leads { R.rights.leads rt.now path.now (string_bytes names.now.image) ≡ true }
    ensures at { IfOk result (IsFolderAt R.rights R.traces rt.now path.now) }
    ensures tags { IfOk result (λ folder. folder.tags ≡ true) }
{
    see_no_lost_log(rt, names)?;
    let image = opened_to_change(rt, path)?;
    Ok(ImageFolder::new(rt, names, image)?.tagging())
}

/// The sectors of the shop that a folder gives, which the image has from then on. `Log` if its log gives none: nothing
/// was changed.
fn shop_of<L: LogFile, D: LogFolder<L>, R: AllocGlobal>(
    rt: &R,
    folder: &mut D,
) -> Result<Vec<[u8; 256]>, CommandFault>
    ensures sized { IfOk result (λ shop. length shop.items ≡ 683) }
    ensures shop { IfOk result (λ shop. (c : Image) (s : Folder) → D.history.held folder.old ≡ Some s → GivesOneOf (c ∷ []) s
        → AllLeft D.history folder.old (GivesOneOf (c ∷ []))
        → RestsAlone D.history folder.new shop.items × Gives s shop.items) }
    ensures any_moment { (c : Image) (s : Folder) → D.history.held folder.old ≡ Some s → GivesOneOf (c ∷ []) s
        → AllLeft D.history folder.old (GivesOneOf (c ∷ []))
        → LeavesFolders D.history folder.old folder.new (GivesOneOf (c ∷ [])) }
{
    match land_in(rt.alloc(), folder) {
        Ok(shop) => Ok(shop),
        Err(fault) => Err(log_refusal(&fault)),
    }
}

/// Serves the shop of this image over a log that was begun with it, to an input, while the file stays to which the replies
/// are bound. Then that file is looked for once more, the log is landed, and the folder returned. The log is left where it
/// is if the file has gone, or a commit failed.
fn serve_begun<L, D, N, I, T>(
    alloc: Global,
    image: &[u8],
    log: LiveLog<L, D>,
    input: &mut I,
    answers: &mut RepliesWhileNamed<'_, N, T>,
) -> (Option<D>, Result<Option<Fault>, CommandFault>)
where
    L: LogFile,
    D: LogFolder<L> + Drop,
    N: NameStays,
    I: BatchSource,
    T: BatchReplies<LiveLog<L, D>>,
    ensures { (gone : Bool) × (answers.new.gone ≡ true → gone ≡ true)
        × IsDoneAndLanded D.history (λ left ended.
        IsEndOfRun (IsLoggedRun (of_live D.history) I.input (while_there T.output) image.now log left
        input.old input.new answers.old answers.new) ended) gone result.0 result.1 }
{
    let mut log = log;
    let ended = run_end(serve_logged(alloc, image, &mut log, input, answers));
    landed_end(log, served_end(ended, answers.has_gone()))
}

/// Serves the shop of this image as `serve_begun` does, and passes the replies to `out` while the file of this name stays.
fn serve_watched<L, D, N, I, T>(
    alloc: Global,
    image: &[u8],
    log: LiveLog<L, D>,
    input: &mut I,
    name: N,
    out: &mut T,
) -> Result<Option<Fault>, CommandFault>
where
    L: LogFile,
    D: LogFolder<L> + Drop,
    N: NameStays + Drop,
    I: BatchSource,
    T: BatchReplies<LiveLog<L, D>>,
    ensures quiet { IsLoggedEnd out.old out.new result }
    ensures kept { IsServedOrNot D.history image.now (I.input.remaining input.old) log
        (ArePassed T.output out.old out.new) out.old out.new result }
{
    let mut answers = RepliesWhileNamed::new(&name, out);
    let (_, ended) = serve_begun(alloc, image, log, input, &mut answers);
    ended
}

/// Serves the shop of this image over a log that was begun with it, to an input, and prints the replies while the file of
/// this name stays.
fn serve_printed<L, D, N, I, W>(
    alloc: Global,
    image: &[u8],
    log: LiveLog<L, D>,
    input: &mut I,
    name: N,
    out: &mut W,
) -> Result<Option<Fault>, CommandFault>
where
    L: LogFile,
    D: LogFolder<L> + Drop,
    N: NameStays + Drop,
    I: BatchSource,
    W: JobOutput,
    ensures told { IsLoggedService W.contents (IsShopOf image.now) out.old out.new result }
    ensures kept { IsServedOrNot D.history image.now (I.input.remaining input.old) log
        (ArePassed (lines_over W.contents (W.replies _)) out.old out.new) out.old out.new result }
{
    let mut printer = LentOutput::new(out);
    serve_watched(alloc, image, log, input, name, &mut printer)
}

/// The end of a job over a log that couldn't be made, or renewed. What was made of a further log is removed, since it
/// would keep the disk full. This is done only while the path leads to the image's file, which only this program may
/// write.
pub(crate) fn cleared_end<F: OpenFile, R: HostFiles<File = F>, T>(
    rt: &R,
    path: &str,
    image: &F,
    names: &LogNames,
    ended: Result<T, CommandFault>,
) -> Result<T, CommandFault>
    requires image { May R.rights rt.now Look path.now }
    requires log { MayForget R.rights rt.now (string_bytes names.now.image) }
    ensures { result ≡ ended }
{
    if ended.is_err() && name_of(rt, path, image).is_ok() {
        let _ = forget_making(rt, names);
    }
    ended
}

/// The bytes of the image in this file, which nobody else writes and of which nothing was read. `LogAway` if a log that
/// isn't there has the rest, and that loss isn't accepted. `Device` if they aren't those of this shop, which was landed: then
/// the image's path leads to another file.
fn landed_bytes<F: Locks>(
    alloc: Global,
    image: &mut F,
    shop: &[[u8; 256]],
    away: Loss,
) -> Result<Vec<u8>, CommandFault>
    requires shared { F.IsShared image.old }
    requires sized { length shop.now ≡ 683 }
    ensures shop { IfOk result (λ bytes. vec_items bytes ≡ flat_map (λ sector. sector) shop.now) }
    ensures sectors { IfOk result (λ bytes. sectors_in (vec_items bytes) ≡ shop.now) }
    ensures read { IfOk result (λ bytes. IfSome (F.unread image.old) (λ all. vec_items bytes ≡ take 174849 all)) }
    ensures whole { IfOk result (λ bytes. ¬ (SaysLogAway (vec_items bytes))) }
{
    let bytes = read_shared(alloc, image)?;
    see_untagged(bytes.as_slice(), away)?;
    if bytes.as_slice() != shop.as_flattened() {
        return Err(CommandFault::Device);
    }
    Ok(bytes)
}

/// Sees that no file of the image is cut short, or that a loss is accepted. `Short` if that isn't so, and otherwise why it isn't
/// known.
fn see_no_loss(alloc: Global, image: &[u8], loss: Loss) -> Result<(), CommandFault>
    ensures ok { IfOk result (λ _. MayBeLost image.now loss) }
    ensures err { IfErr result (λ refusal. (loss ≡ Refused) × IsLossFault image.now refusal) }
{
    match loss_refusal(alloc, image, loss) {
        Some(refusal) => Err(refusal),
        None => Ok(()),
    }
}

/// The bytes of the shop of the image at a path, and a log beside it that was begun with them. A log that stood there was
/// landed: the image has these bytes then. Other programs may read it from then on. `Short` if a file of the image is cut
/// short and `cut` accepts no loss, `LogAway` if its log is away and `away` accepts none.
pub(crate) fn begun_beside<'a, F, R>(
    rt: &'a R,
    path: &str,
    names: &'a LogNames,
    image: &mut F,
    away: Loss,
    cut: Loss,
) -> Result<(Vec<u8>, LiveLog<SystemLog<'a, R>, ImageFolder<'a, R>>), CommandFault>
where
    F: EndedFile + Locks + OpenFile + Drop,
    R: HostFiles<File = F> + HostLogs + AllocGlobal,
    requires owned { F.IsOwned image.old }
    requires shared { F.IsShared image.old }
    requires bytes { AreOf R.stands rt.now path.now (F.unread image.old) }
    requires image { MayWrite R.rights rt.now path.now }
    requires log { MayKeepLogOf R.rights rt.now (string_bytes names.now.image) }
    requires leads { R.rights.leads rt.now path.now (string_bytes names.now.image) ≡ true }
    ensures begun { IfOk result (λ begun. IsBegunIn (untagged_folders R.folders _ _ _) (IsFolderAt R.rights R.traces rt.now path.now)
        (vec_items begun.0) begun.1) }
    ensures read { IfOk result (λ begun. OfWritten R.stands rt.now path.now (λ all. vec_items begun.0 ≡ take 174849 all)) }
    ensures whole { IfOk result (λ begun. MayBeLost (vec_items begun.0) cut) }
{
    let alloc = rt.alloc();
    accept_loss(rt, names, path, away)?;
    let mut folder = folder_of(rt, names, path)?;
    let shop = shop_of(rt, &mut folder)?;
    let Ok(room) = LogRoom::new(alloc) else {
        return Err(CommandFault::NoMemory);
    };
    let Ok(kept) = image_room(alloc) else {
        return Err(CommandFault::NoMemory);
    };
    let bytes = landed_bytes(alloc, image, shop.as_slice(), away)?;
    see_no_loss(alloc, bytes.as_slice(), cut)?;
    let log = match LiveLog::begin(alloc, folder, room, shop, kept) {
        Ok(log) => log,
        Err((error, _)) => return cleared_end(rt, path, image, names, Err(error.into())),
    };
    match image.lock_shared() {
        Ok(()) => Ok((bytes, log)),
        Err(error) => Err(CommandFault::of_lock(&error)),
    }
}

/// Serves the shop of the image at a path, over a log beside it, to what comes on standard input. Other programs may read
/// the image meanwhile, by its log, and none may write it. When the input ends, the log is landed: then the image is the
/// shop's. If the path doesn't lead to the image's file any more, or the file has another length, the reply to the line
/// at hand is MEDIA. Then, and if this is so when the input ends, the service ends with `Device`, and the log stays.
pub fn do_logged_serving<F, R, W>(
    rt: &R,
    path: &str,
    loss: Loss,
    out: &mut W,
) -> Result<Option<Fault>, CommandFault>
where
    F: EndedFile + Locks + OpenFile + Drop,
    R: HostFiles<File = F> + HostLogs + HostInput + AllocGlobal,
    W: JobOutput,
    requires { MayChangeImage R.rights rt.now path.now }
    ensures told { IsLoggedService W.contents (IsShopAt R.stands rt.now path.now) out.old out.new result }
    ensures kept { IsServiceKept R.HostFiles F.Read F.Seek (asked_logs R.logs) (untagged_folders R.folders) R.stands R.rights R.traces W.contents W.replies
        (R.given rt.now) rt.now path.now out.old out.new result }
{
    let alloc = rt.alloc();
    let mut image = opened_alone(rt, path)?;
    see_size(&image)?;
    // A bare reader of standard input reads a byte a call.
    let mut input = BufReader::new(alloc, rt.input())?;
    let name = name_of(rt, path, &image)?;
    let names = LogNames::of(rt, alloc, path)?;
    let (bytes, log) = begun_beside(rt, path, &names, &mut image, loss, loss)?;
    let ended = serve_printed(alloc, bytes.as_slice(), log, &mut input, name, out);
    cleared_end(rt, path, &image, &names, ended)
}
