//! Several images, each read as if it were alone. What is printed of each stands after its name.
ghost use Rattle.std.specs.Prelude.{◌≡◌, IfErr, IfOk, OnOk, vec_items, All, map};
ghost use Rattle.std.specs.Io.KnownBytes.{Appends};
ghost use Rattle.command_faults.specs.declared.faults.CommandFault.TheVariants as faults;
ghost use Rattle.image_looks.specs.EachImage.{IsCutOff, as_loaded};
ghost use Rattle.image_looks.specs.LookRuns.{AreOverviewed};
ghost use Rattle.image_looks.specs.Overviews.{IsAmong, IsOneOfSeveral, IsOverviewOf, IsToldAs};
ghost use Rattle.line_text.specs.Named.{named};
ghost use Rattle.opened_files.specs.Rights.{MayReadImage};

use crate::each_image::{PrintsImage, print_each, several_end};
use crate::kinds::{DiskLook, Look};
use crate::looks::look;
use crate::reporting::{Report, report_image};
use command_faults::CommandFault;
use disk_layout::Fault;
use disk_reports::check_among;
use image_file::{HostFiles, Locks, ShownPath};
use line_text::print_named;
use opened_files::end;
use std::alloc::Global;
use std::fs::OpenFile;
use std::io::{Read, Write};

/// How many bytes memory is taken for at once for what one image prints: more than a directory or a map has.
const ROOM: usize = 32768;

/// Prints a text line by line, each after the image's name. `File` if the output failed.
fn print_text<W: Write>(name: &[u8], text: &[u8], out: &mut W) -> Result<(), CommandFault>
    ensures ok { OnOk result (Appends (W.contents out.old) (W.contents out.new) (named name.now text.now)) }
    ensures err { IfErr result (λ fault. fault ≡ faults.File) }
{
    match print_named(out, name, text) {
        Ok(()) => Ok(()),
        Err(_) => Err(CommandFault::File),
    }
}

/// Prints what an image printed alone, and the line that reports why it is refused, each line after the image's name.
/// Returns its exit status.
fn tell_named<W: Write>(
    name: &[u8],
    mut text: Vec<u8>,
    ended: Result<Option<Fault>, CommandFault>,
    out: &mut W,
) -> Result<u8, CommandFault>
    ensures ok { IfOk result (IsToldAs W.contents name.now (vec_items text) ended out.old out.new) }
    ensures err { IfErr result (λ fault. fault ≡ faults.File) }
{
    let ending = end(ended, &mut text);
    let Ok(()) = ending.told else {
        return Err(CommandFault::File);
    };
    print_text(name, text.as_slice(), out)?;
    Ok(ending.status)
}

/// Prints what is asked of one image of several: what the command prints of it alone, and after a check where its first
/// file is cut short, if one is.
fn look_among<W: Write>(
    alloc: Global,
    what: &Look,
    image: &[u8],
    out: &mut W,
) -> Result<Option<Fault>, CommandFault>
    ensures { IsAmong W.contents what.now image.now out.old out.new result }
{
    match what {
        Look::Check => check_among(alloc, image, out),
        Look::AsIs(DiskLook::Check) => report_image(alloc, Report::Among, image, out),
        _ => look(alloc, what, image, out),
    }
}

/// Prints what is asked of one of several images. The lines are those that the command prints of this image alone, after a
/// check `SHORT` and where its first file is cut short, and the line that it would report on standard error. Each stands
/// after the image's name, a colon and a space. Returns the exit status that the command would have.
///
/// `File` if the output failed, which may then have a part; `NoMemory`, and nothing is printed.
pub fn overview_run<W: Write>(
    alloc: Global,
    what: &Look,
    name: &[u8],
    image: &[u8],
    out: &mut W,
) -> Result<u8, CommandFault>
    ensures ok { IfOk result (IsOneOfSeveral W.contents what.now name.now image.now out.old out.new) }
    ensures err { IfErr result IsCutOff }
{
    let mut text = match Vec::with_capacity(alloc, ROOM) {
        Ok(text) => text,
        Err(_) => return Err(CommandFault::NoMemory),
    };
    let ended = look_among(alloc, what, image, &mut text);
    tell_named(name, text, ended, out)
}

/// Prints what is asked of one of several images, from which this was read, or why it can't be read. Returns its exit
/// status.
fn overview_of<W: Write>(
    alloc: Global,
    what: &Look,
    path: &str,
    read: Result<Vec<u8>, CommandFault>,
    out: &mut W,
) -> Result<u8, CommandFault>
    ensures ok { IfOk result (IsOverviewOf W.contents what.now path.now (as_loaded read) out.old out.new) }
    ensures err { IfErr result IsCutOff }
{
    let Ok(name) = format!(in alloc; "{}", ShownPath(path)) else {
        return Err(CommandFault::NoMemory);
    };
    match read {
        Ok(image) => overview_run(alloc, what, name.as_bytes(), image.as_slice(), out),
        Err(refusal) => tell_named(name.as_bytes(), Vec::new(alloc), Err(refusal), out),
    }
}

/// Images that are looked at. What is printed of each stands after its name.
#[derive(Clone, Copy)]
struct Named<'a>(&'a Look);

impl<R: HostFiles + AllocGlobal, W: Write> PrintsImage<R, W> for Named<'_> {
    ghost prints = { λ named. IsOverviewOf W.contents named.0.now };

    fn print(
        &self,
        rt: &R,
        path: &str,
        read: Result<Vec<u8>, CommandFault>,
        out: &mut W,
    ) -> Result<u8, CommandFault> {
        overview_of(rt.alloc(), self.0, path, read, out)
    }
}

/// Prints what is asked of each of several images, in their order. An image is locked with others that read it while it
/// is read.
///
/// `Several`: an image has a fault or is refused, as the output says. `File` if the output failed, and `NoMemory`: the
/// images after that one aren't read.
pub fn do_several<F, R, W>(
    rt: &R,
    what: &Look,
    paths: &[&str],
    out: &mut W,
) -> Result<Option<Fault>, CommandFault>
where
    F: Read + Locks + OpenFile + Drop,
    R: HostFiles<File = F> + Input + AllocGlobal,
    W: Write,
    requires { All (λ path. MayReadImage R.rights rt.now path.now) paths.now }
    ensures { AreOverviewed R.rights R.stands W.contents rt.now what.now (map (λ path. path.now) paths.now)
        out.old out.new result }
{
    let greatest = print_each(rt, &Named(what), what.extent(), paths, out)?;
    several_end(greatest, out)
}
