//! Images that are made where nothing stands.
ghost use Rattle.std.specs.Prelude.{◌≡◌, [], IfOk, OnOk, Some, length, string_bytes, true};
ghost use Rattle.image_file.specs.Replacing.{NowAll};
ghost use Rattle.image_file.specs.paths.Rights.{Look, Make, May};
ghost use Rattle.opened_files.specs.Makings.{IsMadeAt};
ghost use Rattle.opened_files.specs.Rights.{MayMakeImage, aside_of};
ghost use Rattle.image_log.specs.life.LogRights.{MayForget, log_of};

use crate::asides::Aside;
use crate::image_logs::is_there;
use crate::locks::lock_exclusive;
use command_faults::CommandFault;
use image_file::{EndedFile, HostFiles, Identity, Locks, private_mode, regular, replace_image};
use image_log::{LogNames, forget_log};
use std::fs::{Metadata, OpenFile};
use std::io;

/// What came of a call that makes a file or gives it its name. `Exists` if another file stood there.
fn told_new<T>(made: io::Result<T>) -> Result<T, CommandFault>
    ensures { IfOk result (λ it. made ≡ Ok it) }
{
    match made {
        Err(error) if error.kind() == io::ErrorKind::AlreadyExists => Err(CommandFault::PathExists),
        made => Ok(made?),
    }
}

/// Refuses a path beside which a log stands: that may be all that is left of a shop. `Exists`.
fn see_no_log<R: HostFiles>(rt: &R, names: &LogNames) -> Result<(), CommandFault>
    requires { May R.rights rt.now Look (log_of (string_bytes names.now.image)) }
{
    if is_there(rt, names.log())? {
        return Err(CommandFault::PathExists);
    }
    Ok(())
}

/// Makes a file of this name, for those people who may use the one that it is like.
fn made_file<F, R>(aside: &Aside<'_, R>, like: Option<Metadata>) -> io::Result<F>
where
    F: EndedFile,
    R: HostFiles<File = F>,
    ensures { IfOk result (λ file. R.traces.opened aside.now.rt.now Make
        (aside_of aside.now.path.now aside.now.end.now) file) }
{
    let Some(like) = like else {
        return aside.make_file(0o666);
    };
    let file = aside.make_file(private_mode(&like))?;
    file.guard_as(&like);
    Ok(file)
}

/// Takes a file that was opened or made for this program alone.
pub(crate) fn take<F: EndedFile + Locks + OpenFile>(file: &mut F) -> Result<(), CommandFault>
    ensures { F.EndedFile.remains.held file.new ≡ F.EndedFile.remains.held file.old }
{
    // another thing may stand there by now
    regular(OpenFile::metadata(file))?;
    lock_exclusive(file)
}

/// Removes a log in the making of an image that stood there, and sees that there is no log, unless this one was found.
pub(crate) fn clear<R: HostFiles>(
    rt: &R,
    names: &LogNames,
    log: Option<Identity>,
) -> Result<(), CommandFault>
    requires { MayForget R.rights rt.now (string_bytes names.now.image) }
{
    if log.is_some() {
        return Ok(());
    }
    Ok(forget_log(rt, names, None)?)
}

/// Writes an image into a file that was made, and gives that its path. This log of what stood there stays.
pub(crate) fn fill<F, R>(
    aside: &Aside<'_, R>,
    names: &LogNames,
    log: Option<Identity>,
    file: &mut F,
    image: &[u8],
) -> Result<(), CommandFault>
where
    F: EndedFile + Locks + OpenFile,
    R: HostFiles<File = F>,
    requires size { length image.now ≡ 174848 }
    requires forget { MayForget R.rights aside.now.rt.now (string_bytes names.now.image) }
    ensures held { OnOk result (F.EndedFile.remains.held file.old ≡ Some [] → F.EndedFile.remains.held file.new ≡ Some image.now) }
    ensures lasting { OnOk result (NowAll F.EndedFile.remains file.new (λ s. s ≡ image.now)) }
    ensures moved { OnOk result (R.traces.moved aside.now.rt.now (aside_of aside.now.path.now aside.now.end.now)
        aside.now.path.now) }
{
    take(file)?;
    clear(aside.rt, names, log)?;
    match replace_image(file, image) {
        Ok(()) => told_new(aside.give_path()),
        Err(_) => Err(CommandFault::File),
    }
}

/// Makes an image at a path, for those people who may use the file that `like` describes, as far as the system allows that.
/// It is made under another name, and gets its own when it is whole and synced.
///
/// `Exists`: a file or a log stood there; `InUse`: another program has the file; `File` or `NoMemory`: a call of the system
/// failed. What was made is removed then, and nothing has the path.
pub fn make_image<F, R>(
    rt: &R,
    path: &str,
    like: Option<Metadata>,
    image: &[u8],
) -> Result<(), CommandFault>
where
    F: EndedFile + Locks + OpenFile + Drop,
    R: HostFiles<File = F> + AllocGlobal,
    requires makes { MayMakeImage R.rights rt.now path.now }
    requires size { length image.now ≡ 174848 }
    ensures { OnOk result (IsMadeAt F.EndedFile.remains R.traces rt.now path.now image.now) }
{
    // before the file is made, since memory may be refused
    let names = LogNames::of(rt, rt.alloc(), path)?;
    see_no_log(rt, &names)?;
    let aside = told_new(Aside::free(rt, path))?;
    let mut file = told_new(made_file(&aside, like))?;
    let filled = fill(&aside, &names, None, &mut file, image);
    if filled.is_err() {
        aside.remove_file(&file);
    }
    filled
}
