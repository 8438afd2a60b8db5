//! Images that are made where nothing stands, or written over a file that is no image.
ghost use Rattle.std.specs.Prelude.{◌≡◌, OnOk, length, string_bytes};
ghost use Rattle.image_file.specs.paths.Rights.{Look, May, MayWrite};
ghost use Rattle.image_file.specs.paths.Traces.{IsWrittenOver};
ghost use Rattle.opened_files.specs.Makings.{IsMadeAt, IsPutAt};
ghost use Rattle.opened_files.specs.Rights.{MayMakeImage};
ghost use Rattle.image_log.specs.life.LogRights.{MayForget};

use crate::asides::Aside;
use crate::files::is_file_at;
use crate::image_logs::see_one_place;
use crate::new_images::{clear, fill, take};
use command_faults::CommandFault;
use image_file::{EndedFile, FileName, HostFiles, Identity, Locks, NameStays, replace_image};
use image_log::{LogNames, find_log, forget_log};
use std::fs::OpenFile;
use std::io;

/// Makes the image at a path where nothing stands. `log` stays, if it stands there.
fn make_beside<F, R>(
    rt: &R,
    path: &str,
    names: &LogNames,
    log: Option<Identity>,
    image: &[u8],
) -> Result<(), CommandFault>
where
    F: EndedFile + Locks + OpenFile + Drop,
    R: HostFiles<File = F> + AllocGlobal,
    requires makes { MayMakeImage R.rights rt.now path.now }
    requires forget { MayForget R.rights rt.now (string_bytes names.now.image) }
    requires size { length image.now ≡ 174848 }
    ensures { OnOk result (IsMadeAt F.EndedFile.remains R.traces rt.now path.now image.now) }
{
    let aside = Aside::free(rt, path)?;
    let mut file = aside.make_file(0o666)?;
    let filled = fill(&aside, names, log, &mut file, image);
    if filled.is_err() {
        aside.remove_file(&file);
    }
    filled
}

/// Syncs the names in the folder of the file at a path, which is open here. An error also if the path leads to another file by
/// then, or the file has another length.
fn sync_named<F, R>(rt: &R, path: &str, file: &F) -> io::Result<()>
where
    F: OpenFile + Drop,
    R: HostFiles<File = F>,
    requires { May R.rights rt.now Look path.now }
{
    rt.sync_folder_of(path)?;
    if FileName::of(rt, path, file)?.is_still_named() {
        return Ok(());
    }
    Err(io::ErrorKind::NotFound.into())
}

/// Writes the image over the file at a path. `log` stays, if it stands beside it.
fn write_over<F, R>(
    rt: &R,
    path: &str,
    names: &LogNames,
    log: Option<Identity>,
    image: &[u8],
) -> Result<(), CommandFault>
where
    F: EndedFile + Locks + OpenFile + Drop,
    R: HostFiles<File = F> + AllocGlobal,
    requires overwrites { MayWrite R.rights rt.now path.now }
    requires forget { MayForget R.rights rt.now (string_bytes names.now.image) }
    requires size { length image.now ≡ 174848 }
    ensures { OnOk result (IsWrittenOver F.EndedFile.remains R.traces rt.now path.now image.now) }
{
    let mut file = rt.open_to_write(path)?;
    take(&mut file)?;
    see_one_place(rt, path, &file)?;
    clear(rt, names, log)?;
    match replace_image(&mut file, image) {
        Ok(()) => Ok(sync_named(rt, path, &file)?),
        Err(_) => Err(CommandFault::File),
    }
}

/// Makes an image at a path, or writes it over the file that stands there. One that is made has another name until it is whole
/// and synced. The log of what is replaced stays until the image is whole.
///
/// `InUse`: another program has the file; `TwoNames`: it has a second name; `File` or `NoMemory`: a call of the system failed, or
/// the path leads to another file once the file was written over. What was made is removed then, unless its log couldn't be
/// removed; a file that is written over may be spoiled.
pub fn put_image<F, R>(rt: &R, path: &str, image: &[u8]) -> Result<(), CommandFault>
where
    F: EndedFile + Locks + OpenFile + Drop,
    R: HostFiles<File = F> + AllocGlobal,
    requires makes { MayMakeImage R.rights rt.now path.now }
    requires overwrites { MayWrite R.rights rt.now path.now }
    requires size { length image.now ≡ 174848 }
    ensures { OnOk result (IsPutAt F.EndedFile.remains R.traces rt.now path.now image.now) }
{
    // before a file is made, since memory may be refused
    let names = LogNames::of(rt, rt.alloc(), path)?;
    let log = find_log(rt, &names)?;
    if is_file_at(rt, path)? {
        write_over(rt, path, &names, log, image)?;
    } else {
        match make_beside(rt, path, &names, log, image) {
            Ok(()) => {}
            // something came there meanwhile
            Err(CommandFault::PathExists) => return Err(CommandFault::File),
            Err(refusal) => return Err(refusal),
        }
    }
    if log.is_none() {
        return Ok(());
    }
    Ok(forget_log(rt, &names, log)?)
}
