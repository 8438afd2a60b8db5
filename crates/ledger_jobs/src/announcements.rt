//! What a person at a terminal reads before a job is done, and after a check.
ghost use Rattle.ledger_jobs.specs.JobRights.{MayExplain};
ghost use Rattle.opened_files.specs.Rights.{MayReadImage};

use crate::cures::{cure_of, meaning_of_fault};
use crate::failure_lines::tell_of;
use crate::jobs::Job;
use crate::refusal_subjects::{CUT_SHORT, FEWER};
use crate::text_warnings::tell_text;
use crate::typed_names::warn_of_name;
use arrayvec::ArrayVec;
use command_faults::{CommandFault, load};
use damaged_files::{Shortfall, read_so_far};
use disk_changes::{Remedy, find_remedy, has_geos_sign};
use disk_layout::{Fault, map_place};
use image_file::{HostFiles, Locks, ShownPath};
use image_looks::Look;
use opened_files::{STANDARD_INPUT, image_of_file, shortfall_in, size_of};
use std::alloc::Global;
use std::fs::OpenFile;
use std::io::{Read, Write};

/// Whether 18/0 of an image has GEOS's signature.
fn is_of_geos(image: &[u8]) -> bool {
    let (sectors, _) = image.as_chunks::<256>();
    match sectors.get(map_place().index()) {
        Some(map) => has_geos_sign(map),
        None => false,
    }
}

/// What the files of an image lack, and whether it is a disk of GEOS.
#[derive(Clone, Copy)]
struct Lack {
    shortfall: Shortfall,
    of_geos: bool,
}

/// What the files of the image at a path lack, as its shop is now. None also if another program has the image alone, if the
/// image can't be read, and for standard input.
fn shortfall_at<F, R>(rt: &R, path: &str) -> Option<Lack>
where
    F: Read + Locks + OpenFile + Drop,
    R: HostFiles<File = F> + AllocGlobal,
    requires { MayReadImage R.rights rt.now path.now }
{
    if path == STANDARD_INPUT {
        return None;
    }
    let image = image_of_file(rt, path).ok()?;
    let shortfall = shortfall_in(rt.alloc(), image.as_slice()).unwrap_or_default()?;
    let of_geos = is_of_geos(image.as_slice());
    Some(Lack { shortfall, of_geos })
}

/// Prints what the files of an image lack.
fn print_lack<E: Write>(err: &mut E, lack: Lack) {
    if lack.of_geos && matches!(lack.shortfall, Shortfall::Short(_)) {
        let _ = writeln!(err, "{}", CommandFault::Geos);
    }
    let _ = writeln!(err, "{}", lack.shortfall);
}

/// What can be done about the image at a path. None also if another program has the image alone, if it can't be read, and of standard
/// input.
pub(crate) fn remedy_at<F, R>(rt: &R, path: &str) -> Option<Remedy>
where
    F: Read + Locks + OpenFile + Drop,
    R: HostFiles<File = F> + AllocGlobal,
    requires { MayReadImage R.rights rt.now path.now }
{
    if path == STANDARD_INPUT {
        return None;
    }
    let image = image_of_file(rt, path).ok()?;
    find_remedy(rt.alloc(), image.as_slice()).ok()
}

/// Prints what a fault of the image at a path means, and what can be done about this very image.
pub(crate) fn tell_fault<F, R, E>(rt: &R, image: &str, fault: Fault, err: &mut E)
where
    F: Read + Locks + OpenFile + Drop,
    R: HostFiles<File = F> + AllocGlobal,
    E: Write,
    requires { MayReadImage R.rights rt.now image.now }
{
    let meaning = meaning_of_fault(fault);
    let shown = ShownPath(image);
    let Some(remedy) = remedy_at(rt, image) else {
        let _ = writeln!(err, "ledger: {shown}: {meaning}");
        return;
    };
    let _ = match (remedy, cure_of(remedy)) {
        // that sectors are taken is all that is wrong with the BAM
        (Remedy::Strays { .. }, Some(cure)) => writeln!(err, "ledger: {shown}: {cure}"),
        (_, Some(cure)) => writeln!(err, "ledger: {shown}: {meaning}; {cure}"),
        (_, None) => writeln!(err, "ledger: {shown}: {meaning}"),
    };
}

/// Prints what can be done about what the files of a clean disk lack.
fn tell_lack<F, R, E>(rt: &R, image: &str, lack: Lack, err: &mut E)
where
    F: Read + Locks + OpenFile + Drop,
    R: HostFiles<File = F> + AllocGlobal,
    E: Write,
    requires { MayReadImage R.rights rt.now image.now }
{
    let said = match lack.shortfall {
        Shortfall::Fewer(_) => Some(FEWER),
        Shortfall::Short(_) => match remedy_at(rt, image) {
            Some(remedy) => cure_of(remedy),
            None => None,
        },
    };
    if let Some(said) = said {
        tell_of(err, image, said);
    }
}

/// Prints for a person, after the verdict of a check, what the fault means that it found, and what to do. Then it prints
/// what a file of the image lacks, if one lacks something: a line `SHORT t/s` or `FEWER t/s`. A line `GEOS` stands before
/// `SHORT t/s` of a disk of GEOS, as changes refuse it. For that the image's file is opened, locked with others that read
/// it, and read once more. If that can't be done, or a line can't be printed, it isn't printed.
///
/// After a change that took a text of the host it prints what is odd about that: a P00 or a T64 that was cut short, records with
/// small letters.
pub fn tell_verdict<F, R, E>(rt: &R, job: &Job<'_>, found: Option<Fault>, err: &mut E)
where
    F: Read + Locks + OpenFile + Drop,
    R: HostFiles<File = F> + AllocGlobal,
    E: Write,
    requires { MayExplain R.rights rt.now job.now }
{
    let Job::Look {
        what: Look::Check | Look::Faults,
        image,
    } = job
    else {
        return tell_text(rt, job, err);
    };
    if let Some(fault) = found {
        tell_fault(rt, image, fault, err);
    }
    if let Some(lack) = shortfall_at(rt, image) {
        print_lack(err, lack);
        if found.is_none() {
            tell_lack(rt, image, lack, err);
        }
    }
}

/// Prints for a person, before an image is played, where its first file is cut short.
pub(crate) fn warn_of_cut<F, R, E>(rt: &R, image: &str, err: &mut E)
where
    F: Read + Locks + OpenFile + Drop,
    R: HostFiles<File = F> + AllocGlobal,
    E: Write,
    requires { MayReadImage R.rights rt.now image.now }
{
    let Some(lack) = shortfall_at(rt, image) else {
        return;
    };
    if let lack @ Shortfall::Short(_) = lack.shortfall {
        let image = ShownPath(image);
        let _ = writeln!(err, "ledger: {image}: {lack}; {CUT_SHORT}");
    }
}

/// How many files the directory of an image names, as far as it can be read. None of what is no image.
fn count_files(alloc: Global, image: &[u8]) -> Option<usize> {
    let disk = load(alloc, image).ok()?;
    let (mut sectors, mut entries) = (ArrayVec::new(), ArrayVec::new());
    let _ = read_so_far(&disk, &mut sectors, &mut entries);
    Some(entries.len())
}

/// How many files the directory of the image at a path names. None also if the image can't be read.
fn files_at<F, R>(rt: &R, path: &str) -> Option<usize>
where
    F: Read + Locks + OpenFile + Drop,
    R: HostFiles<File = F> + AllocGlobal,
    requires { MayReadImage R.rights rt.now path.now }
{
    if path == STANDARD_INPUT {
        return None;
    }
    let image = image_of_file(rt, path).ok()?;
    count_files(rt.alloc(), image.as_slice())
}

/// Prints which file is going to be replaced: how many bytes it has, and how many files, if it is an image.
fn tell_replaced<F, R, E>(rt: &R, path: &str, err: &mut E)
where
    F: Read + Locks + OpenFile + Drop,
    R: HostFiles<File = F> + AllocGlobal,
    E: Write,
    requires { MayReadImage R.rights rt.now path.now }
{
    let Some(bytes) = size_of(rt, path) else {
        return;
    };
    let shown = ShownPath(path);
    let _ = match files_at(rt, path) {
        Some(1) => writeln!(err, "ledger: replacing {shown}, which has 1 file"),
        Some(files) => writeln!(err, "ledger: replacing {shown}, which has {files} files"),
        None => writeln!(err, "ledger: replacing {shown}, which has {bytes} bytes"),
    };
}

/// Prints for a person which file a job is going to replace, or that a C64 can't ask for the name that it gives a file. If
/// a job is going to play an image, it prints where the first file of the image is cut short, if one is. That image is
/// locked with others that read it while it is read. If a line can't be printed, this isn't reported: nobody reads standard
/// error.
pub fn announce<F, R, E>(rt: &R, job: &Job<'_>, err: &mut E)
where
    F: Read + Locks + OpenFile + Drop,
    R: HostFiles<File = F> + AllocGlobal,
    E: Write,
    requires { MayExplain R.rights rt.now job.now }
{
    match job {
        Job::Format { image, .. } => tell_replaced(rt, image, err),
        Job::Play { image, .. } | Job::PlayLogged { image, .. } => warn_of_cut(rt, image, err),
        job => warn_of_name(job, err),
    }
}
