//! The line that says to a person which size an image has.
ghost use Rattle.std.specs.Prelude.{IfSome};
ghost use Rattle.ledger_jobs.specs.JobRights.{MayExplain};
ghost use Rattle.opened_files.specs.Rights.{MayReadImage};

use crate::failure_lines::tell_of;
use crate::formats::said_of_format;
use crate::job_files::{first_file, source_file};
use crate::jobs::Job;
use d64_image::IMAGE_BYTES;
use disk_changes::ChangeKind;
use image_file::{HostFiles, Locks, ShownPath};
use opened_files::{STANDARD_INPUT, image_of_file, size_of};
use std::fs::OpenFile;
use std::io::{Read, Write};

/// How many bytes an image has.
pub(crate) const SIZE: &str = "an image of 35 tracks without error bytes has 174848";

/// The other image, of which a job copies a file, if its files may be read.
fn source_to_read<'a, R: HostFiles>(rt: &R, job: &Job<'a>) -> Option<&'a str>
    requires { MayExplain R.rights rt.now job.now }
    ensures { IfSome result (λ path. MayReadImage R.rights rt.now path.now) }
{
    source_file(job)
}

/// The image of a job that has another size than a disk: of two the first one, unless it has that size.
pub(crate) fn missized_of<'a, R: HostFiles>(rt: &R, job: &Job<'a>) -> Option<&'a str>
    requires { MayExplain R.rights rt.now job.now }
    ensures { IfSome result (λ path. MayReadImage R.rights rt.now path.now) }
{
    match job {
        Job::Compare { before, after } => {
            if size_of(rt, before) == Some(IMAGE_BYTES as u64) {
                Some(after)
            } else {
                Some(before)
            }
        }
        Job::Change {
            image,
            kind: ChangeKind::CopyFile { .. },
            ..
        } if size_of(rt, image) == Some(IMAGE_BYTES as u64) => source_to_read(rt, job),
        _ => first_file(job),
    }
}

/// The first bytes of an image, as far as they can be read again. None of standard input.
fn bytes_again<F, R>(rt: &R, path: &str) -> Option<Vec<u8>>
where
    F: Read + Locks + OpenFile + Drop,
    R: HostFiles<File = F> + AllocGlobal,
    requires { MayReadImage R.rights rt.now path.now }
{
    if path == STANDARD_INPUT {
        return None;
    }
    image_of_file(rt, path).ok()
}

/// Prints how many bytes an image has, which format it may be of, and how to get one of 35 tracks without error bytes.
pub(crate) fn tell_size<F, R, E>(rt: &R, image: &str, err: &mut E)
where
    F: Read + Locks + OpenFile + Drop,
    R: HostFiles<File = F> + AllocGlobal,
    E: Write,
    requires { MayReadImage R.rights rt.now image.now }
{
    let Some(size) = size_of(rt, image) else {
        return tell_of(err, image, SIZE);
    };
    let shown = ShownPath(image);
    let said = match bytes_again(rt, image) {
        Some(bytes) => said_of_format(size, bytes.as_slice()),
        None => said_of_format(size, &[]),
    };
    let _ = writeln!(err, "ledger: {shown} has {size} bytes; {said}");
}
