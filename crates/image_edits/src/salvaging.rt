//! An image of its own, made of a log alone.
ghost use Rattle.std.specs.Prelude.{◌≡◌, IfErr, IfOk, IfSome, length, take, vec_items};
ghost use Rattle.image_file.specs.paths.Rights.{MayRead};
ghost use Rattle.opened_files.specs.HostFiles.{IsUnread, OfWritten};
ghost use Rattle.image_edits.specs.EditRuns.{IsSalvagedFrom};
ghost use Rattle.opened_files.specs.Rights.{MayMakeImage};
ghost use Rattle.image_edits.specs.Salvages.{IsOfLog, IsUnsalvaged, log_bytes, salvage_text as text_of};
ghost use Rattle.command_faults.specs.declared.faults.CommandFault.TheVariants as faults;

use crate::copying::make_told;
use command_faults::CommandFault;
use disk_layout::Fault;
use image_file::{EndedFile, HostFiles, Locks, read_script};
use image_log::{Salvaged, image_room, salvage};
use opened_files::{log_refusal, metadata_of, opened_shared};
use std::alloc::Global;
use std::fs::OpenFile;
use std::io::{self, Read, Write};

/// How many bytes a log has.
const LOG_BYTES: usize = 4_198_400;

/// What is printed of an image that was made of a log. `NoMemory` if there is none for it.
fn salvage_text(alloc: Global, taken: Salvaged) -> Result<Vec<u8>, CommandFault>
    ensures ok { IfOk result (λ text. text.items ≡ text_of taken) }
    ensures err { IfErr result (λ refusal. refusal ≡ faults.NoMemory) }
{
    let Salvaged { commits, left } = taken;
    let mut text = Vec::new(alloc);
    if write!(text, "COPIED\nCOMMITS {commits}\nLEFT {left}\n").is_err() {
        return Err(CommandFault::NoMemory);
    }
    Ok(text)
}

/// Gives these bytes the length of a log. `NoMemory` if there is none for it.
fn complete(log: &mut Vec<u8>) -> Result<(), CommandFault>
    ensures ok { IfOk result (λ _. log.new.items ≡ log_bytes log.old.items) }
    ensures len { IfOk result (λ _. length log.new.items ≡ 4198400) }
    ensures err { IfErr result (λ refusal. refusal ≡ faults.NoMemory) }
{
    match log.resize(LOG_BYTES, 0) {
        Ok(()) => Ok(()),
        Err(_) => Err(CommandFault::NoMemory),
    }
}

/// Puts the image of a log's whole commits over a shop, and returns what is printed of that.
fn take_commits(
    alloc: Global,
    log: &mut Vec<u8>,
    shop: &mut [[u8; 256]],
) -> Result<Vec<u8>, CommandFault>
    requires sized { length shop.old ≡ 683 }
    ensures sized { length shop.new ≡ 683 }
    ensures ok { IfOk result (λ text. IsOfLog log.old.items (λ image said. (image ≡ shop.new) × (text.items ≡ said))) }
    ensures err { IfErr result (IsUnsalvaged log.old.items) }
{
    complete(log)?;
    match salvage(log, shop) {
        Ok(taken) => salvage_text(alloc, taken),
        Err(fault) => Err(log_refusal(&fault)),
    }
}

/// The image of a log's whole commits, and what is printed of that.
fn salvaged(alloc: Global, log: Vec<u8>) -> Result<(Vec<[u8; 256]>, Vec<u8>), CommandFault>
    ensures ok { IfOk result (λ made. IsOfLog (vec_items log)
        (λ image said. (image ≡ vec_items made.0) × (vec_items made.1 ≡ said))) }
    ensures sized { IfOk result (λ made. length (vec_items made.0) ≡ 683) }
    ensures err { IfErr result (IsUnsalvaged (vec_items log)) }
{
    let mut log = log;
    let Ok(mut image) = image_room(alloc) else {
        return Err(CommandFault::NoMemory);
    };
    let text = take_commits(alloc, &mut log, image.as_mut_slice())?;
    Ok((image, text))
}

/// The bytes that a reader has, up to as many as a log has.
fn read_log<R: Read + Drop>(alloc: Global, reader: R) -> io::Result<Vec<u8>>
    ensures { IfOk result (λ bytes. IfSome (R.remaining reader) (λ all. vec_items bytes ≡ take 4198400 all)) }
{
    read_script(alloc, reader.take(LOG_BYTES as u64), LOG_BYTES + 1)
}

/// The bytes of a log's file, up to as many as a log has.
fn read_log_file<F: Locks + Drop>(alloc: Global, file: F) -> io::Result<Vec<u8>>
    ensures { IfOk result (λ bytes. IfSome (F.unread file) (λ all. vec_items bytes ≡ take 4198400 all)) }
{
    read_log(alloc, file)
}

/// The same of the log at a path, which is opened and locked with others that read it.
fn log_at<F, R>(rt: &R, path: &str) -> Result<Vec<u8>, CommandFault>
where
    F: Locks + Drop,
    R: HostFiles<File = F> + AllocGlobal,
    requires { MayRead R.rights rt.now path.now }
    ensures read { OfWritten R.stands rt.now path.now (λ all. IfOk result (λ log. vec_items log ≡ take 4198400 all)) }
    ensures err { IfErr result IsUnread }
{
    let file = opened_shared(rt, path)?;
    Ok(read_log_file(rt.alloc(), file)?)
}

/// Copies the image of the whole commits of the log at a path to a file at another path, at which there must be none. Prints
/// `COPIED`, how many commits these are, the base among them, and how many blocks were left out after them. Zeros stand for
/// the bytes that a shorter file hasn't, and more than a log has aren't read. `Log`: the first commit isn't whole. The other
/// errors are those of `make_image`; and `File` if the log couldn't be read, or `out` failed, which then has a prefix of
/// what is printed.
pub fn do_salvaging<F, R, W>(
    rt: &R,
    path: &str,
    copy: &str,
    out: &mut W,
) -> Result<Option<Fault>, CommandFault>
where
    F: EndedFile + Read + Locks + OpenFile + Drop,
    R: HostFiles<File = F> + AllocGlobal,
    W: Write,
    requires log { MayRead R.rights rt.now path.now }
    requires copy { MayMakeImage R.rights rt.now copy.now }
    ensures { IsSalvagedFrom R.rights R.stands R.traces F.EndedFile.remains W.contents rt.now path.now copy.now
        out.old out.new result }
{
    let log = log_at(rt, path)?;
    let (image, text) = salvaged(rt.alloc(), log)?;
    let (image, like) = (image.as_slice().as_flattened(), metadata_of(rt, path));
    make_told(rt, copy, like, image, text.as_slice(), out)
}
