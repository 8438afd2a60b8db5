//! Images that are read, each described in a line of its own: what is known of it, what can be done for it, or what a look at it
//! shows.
ghost use Rattle.std.specs.Prelude.{◌≡◌, ◌≢◌, All, IfOk, map, IfErr, OnOk};
ghost use Rattle.std.specs.Io.KnownBytes.{Appends};
ghost use Rattle.command_faults.specs.declared.faults.CommandFault.TheVariants as faults;
ghost use Rattle.image_looks.specs.Descriptions.{IsDescribedFrom, IsDescribingFault, IsImageDescribed, IsOneDescribed};
ghost use Rattle.image_looks.specs.Descriptions.{IsRefusalDescribed, IsRefusalPrinted, found_status, heading_of as heading_text};
ghost use Rattle.image_looks.specs.EachImage.{IsCutOff, as_loaded};
ghost use Rattle.image_looks.specs.Extents.{form_extent};
ghost use Rattle.image_looks.specs.LookRuns.{AreDescribed};
ghost use Rattle.opened_files.specs.Rights.{MayLook, MayReadImage};
ghost use Rattle.image_looks.specs.declared.descriptions.ImageForm.TheVariants as forms;

use crate::each_image::{PrintsImage, print_each, several_end};
use crate::objects::{ImageObject, show_object, show_refused, status_by_check};
use crate::plans::{plan_against, plan_of};
use command_faults::CommandFault;
use disk_layout::Fault;
use disk_reports::{
    PlanForm, describe_image, describe_refusal, heading, heading_as_is, plan_heading, refusal_as_is,
};
use image_file::{HostFiles, Locks};
use json_looks::check_row;
use opened_files::{Extent, size_of};
use std::alloc::Global;
use std::fs::OpenFile;
use std::io::{Read, Write};

/// How images are described.
#[derive(Clone, Copy, Debug, PartialEq, Eq)]
pub enum ImageForm {
    /// By a row of a table of what is known of each: comma-separated values (RFC 4180), below a heading.
    Table,
    /// By a row of each as it is: an image of 40 or 42 tracks, or with error bytes, is described by its first 35 tracks, and two columns
    /// say what isn't on these.
    TableAsIs,
    /// By what can be done for each.
    Planned(PlanForm),
    /// By an object of what a look prints of each.
    Shown(ImageObject),
}

impl ImageForm {
    /// Which images are described so.
    fn extent(self) -> Extent
        ensures { result ≡ form_extent self }
    {
        match self {
            ImageForm::Shown(object) => object.extent(),
            ImageForm::TableAsIs => Extent::Whole,
            _ => Extent::Disk,
        }
    }
}

/// What stands before the first image.
fn heading_of(form: ImageForm) -> &'static [u8]
    ensures { result.now ≡ heading_text form }
{
    match form {
        ImageForm::Table => heading(),
        ImageForm::TableAsIs => heading_as_is(),
        ImageForm::Planned(form) => plan_heading(form),
        ImageForm::Shown(_) => b"",
    }
}

/// Prints the row of an image that is refused.
fn print_refused<R, W>(
    rt: &R,
    path: &str,
    refusal: CommandFault,
    out: &mut W,
) -> Result<(), CommandFault>
where
    R: HostFiles + AllocGlobal,
    W: Write,
    requires { MayLook R.rights rt.now path.now }
    ensures ok { OnOk result (IsRefusalPrinted W.contents forms.Table path.now refusal out.old out.new) }
    ensures err { IfErr result IsCutOff }
{
    let Ok(why) = format!(in rt.alloc(); "{refusal}") else {
        return Err(CommandFault::NoMemory);
    };
    describe_refusal(path.as_bytes(), size_of(rt, path), why.as_bytes(), out)
}

/// Prints the row of an image that is refused, among those that are described as they are.
fn print_refused_whole<R, W>(
    rt: &R,
    path: &str,
    refusal: CommandFault,
    out: &mut W,
) -> Result<(), CommandFault>
where
    R: HostFiles + AllocGlobal,
    W: Write,
    requires { MayLook R.rights rt.now path.now }
    ensures ok { OnOk result (IsRefusalPrinted W.contents forms.TableAsIs path.now refusal out.old out.new) }
    ensures err { IfErr result IsCutOff }
{
    let Ok(why) = format!(in rt.alloc(); "{refusal}") else {
        return Err(CommandFault::NoMemory);
    };
    refusal_as_is(path.as_bytes(), size_of(rt, path), why.as_bytes(), out)
}

/// Prints of the image at a path that is refused what the command would print of it alone.
fn print_refusal_in<R, W>(
    rt: &R,
    form: ImageForm,
    path: &str,
    refusal: CommandFault,
    out: &mut W,
) -> Result<(), CommandFault>
where
    R: HostFiles + AllocGlobal,
    W: Write,
    requires { MayLook R.rights rt.now path.now }
    ensures ok { OnOk result (IsRefusalPrinted W.contents form path.now refusal out.old out.new) }
    ensures err { IfErr result IsCutOff }
{
    match form {
        ImageForm::Table => print_refused(rt, path, refusal, out),
        ImageForm::TableAsIs => print_refused_whole(rt, path, refusal, out),
        ImageForm::Planned(form) => plan_against(
            rt.alloc(),
            form,
            path,
            refusal,
            size_of(rt, path),
            out,
        ),
        ImageForm::Shown(object) => show_refused(
            rt.alloc(),
            object,
            path,
            size_of(rt, path),
            refusal,
            out,
        ),
    }
}

/// Describes the image at a path that is refused, by what the command would print of it alone. Returns its exit status.
fn print_refusal<R, W>(
    rt: &R,
    form: ImageForm,
    path: &str,
    refusal: CommandFault,
    out: &mut W,
) -> Result<u8, CommandFault>
where
    R: HostFiles + AllocGlobal,
    W: Write,
    requires { MayLook R.rights rt.now path.now }
    ensures ok { IfOk result (IsRefusalDescribed W.contents form path.now refusal out.old out.new) }
    ensures err { IfErr result IsCutOff }
{
    print_refusal_in(rt, form, path, refusal, out)?;
    Ok(refusal.status())
}

/// The exit status of a check that finds this; or why it isn't made.
fn status_by_fault(found: Result<Option<Fault>, CommandFault>) -> Result<u8, CommandFault>
    ensures { result ≡ found_status found }
{
    match found {
        Ok(None) => Ok(0),
        Ok(Some(_)) => Ok(1),
        Err(fault) => Err(fault),
    }
}

/// Describes an image with these bytes. Returns the exit status that a check of it alone would have.
fn describe_one<W: Write>(
    alloc: Global,
    form: ImageForm,
    path: &str,
    image: &[u8],
    out: &mut W,
) -> Result<u8, CommandFault>
    ensures ok { IfOk result (IsOneDescribed W.contents form path.now image.now out.old out.new) }
    ensures err { IfErr result (IsDescribingFault form image.now) }
    ensures untouched { IfErr result (λ fault. (fault ≢ faults.File) → out.new ≡ out.old) }
{
    match form {
        ImageForm::Table => status_by_fault(describe_image(alloc, path.as_bytes(), image, out)),
        ImageForm::TableAsIs => status_by_check(check_row(alloc, path, image, out)),
        ImageForm::Planned(form) => status_by_fault(plan_of(alloc, form, path, image, out)),
        ImageForm::Shown(object) => show_object(alloc, object, path, image, out),
    }
}

/// Describes the image at a path that has these bytes, and returns the exit status that a check of it alone would have.
// Out of line: its frame is large, and a frame touches each page of it.
#[inline(never)]
fn describe<R, W>(
    rt: &R,
    form: ImageForm,
    path: &str,
    image: &[u8],
    out: &mut W,
) -> Result<u8, CommandFault>
where
    R: HostFiles + AllocGlobal,
    W: Write,
    requires { MayLook R.rights rt.now path.now }
    ensures ok { IfOk result (IsImageDescribed W.contents form path.now image.now out.old out.new) }
    ensures err { IfErr result IsCutOff }
{
    match describe_one(rt.alloc(), form, path, image, out) {
        Ok(status) => Ok(status),
        Err(CommandFault::File) => Err(CommandFault::File),
        Err(fault) => print_refusal(rt, form, path, fault, out),
    }
}

/// Describes the image at a path from which this was read, and returns the exit status that a check of it alone would
/// have.
fn describe_read<R, W>(
    rt: &R,
    form: ImageForm,
    path: &str,
    read: Result<Vec<u8>, CommandFault>,
    out: &mut W,
) -> Result<u8, CommandFault>
where
    R: HostFiles + AllocGlobal,
    W: Write,
    requires { MayLook R.rights rt.now path.now }
    ensures ok { IfOk result (IsDescribedFrom W.contents form path.now (as_loaded read) out.old out.new) }
    ensures err { IfErr result IsCutOff }
{
    match read {
        Ok(image) => describe(rt, form, path, image.as_slice(), out),
        Err(refusal) => print_refusal(rt, form, path, refusal, out),
    }
}

/// Prints what stands before the first image. `File` if the output failed.
fn print_heading<W: Write>(form: ImageForm, out: &mut W) -> Result<(), CommandFault>
    ensures ok { OnOk result (Appends (W.contents out.old) (W.contents out.new) (heading_text form)) }
    ensures err { IfErr result IsCutOff }
{
    match out.write_all(heading_of(form)) {
        Ok(()) => Ok(()),
        Err(_) => Err(CommandFault::File),
    }
}

/// Images that are described in this form, one after another.
#[derive(Clone, Copy)]
struct Listed(ImageForm);

impl<R: HostFiles + AllocGlobal, W: Write> PrintsImage<R, W> for Listed {
    ghost prints = { λ listed. IsDescribedFrom W.contents listed.0 };

    fn print(
        &self,
        rt: &R,
        path: &str,
        read: Result<Vec<u8>, CommandFault>,
        out: &mut W,
    ) -> Result<u8, CommandFault> {
        describe_read(rt, self.0, path, read, out)
    }
}

/// Describes each of these images in a form, in their order, also one that is refused. An image is locked with others that
/// read it while it is read.
///
/// `Several`: an image has a fault or is refused, as the output says. `File` if the output failed, and `NoMemory`: the
/// images after that one aren't read.
pub fn do_describing<F, R, W>(
    rt: &R,
    form: ImageForm,
    paths: &[&str],
    out: &mut W,
) -> Result<Option<Fault>, CommandFault>
where
    F: Read + Locks + OpenFile + Drop,
    R: HostFiles<File = F> + Input + AllocGlobal,
    W: Write,
    requires { All (λ path. MayReadImage R.rights rt.now path.now) paths.now }
    ensures { AreDescribed R.rights R.stands W.contents rt.now form (map (λ path. path.now) paths.now) out.old out.new result }
{
    print_heading(form, out)?;
    let greatest = print_each(rt, &Listed(form), form.extent(), paths, out)?;
    several_end(greatest, out)
}
