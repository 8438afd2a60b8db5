//! The jobs that only look at images, one for each subcommand.
ghost use Rattle.std.specs.Prelude.{◌≡◌, [], List, MatchResult, Option, codes, map, true, vec_items};
ghost use Rattle.clap.specs.Words.{Row, Text, found_of, rows_of};
ghost use Rattle.command_table.specs.Grammar.{values};
ghost use Rattle.ledger_cli.specs.Flags.{is_given as given};
ghost use Rattle.ledger_cli.specs.Images.{has_two_forms as two_forms};
ghost use Rattle.ledger_cli.specs.Jobs.{IsNoJob, IsRead};
ghost use Rattle.ledger_cli.specs.Looks.{IsAlone, IsAskedBy, IsDiskAsked, IsObjectAsked, IsOne, disk_word, object_word, word_of};

use crate::faults::JobFault;
use crate::file_names::name_of;
use crate::forms::{alone, byte_form, candidates, loss, name_form, plan_form, record_form};
use crate::numbers::place_of;
use crate::values::{is_given, value_of, values_of};
use clap::{ArgMatches, Error};
use disk_pictures::MOST_TILES;
use file_rescues::FileForm;
use image_looks::{DiskLook, ImageForm, ImageObject, Look};
use ledger_jobs::Job;
use std::alloc::{AllocError, Global};

/// The images that the words give, in their order. `Words` if there is no memory for the list.
fn images_of<'a>(alloc: Global, matches: &ArgMatches<'a>) -> Result<Vec<&'a str>, JobFault>
    ensures { MatchResult result (λ images. map (λ image. image.now) (vec_items images) ≡ values (codes "IMAGE") (rows_of (found_of matches.now)))
        (λ fault. (found : Option (Text × List Row)) → IsNoJob [] found fault) }
{
    let Some(images) = values_of(matches, "IMAGE") else {
        // A parse without an image is refused.
        return Err(JobFault::Words(Error::from(AllocError)));
    };
    let mut all = Vec::new(alloc);
    match all.extend_from_slice(images) {
        Ok(()) => Ok(all),
        Err(error) => Err(JobFault::Words(Error::from(error))),
    }
}

/// The job that prints this of one image, or of several.
fn viewing<'a>(alloc: Global, matches: &ArgMatches<'a>, what: Look) -> Result<Job<'a>, JobFault>
    requires alone { IsOne (rows_of (found_of matches.now)) → IsAlone what (rows_of (found_of matches.now)) }
    requires asked { IsAskedBy what (rows_of (found_of matches.now)) }
    ensures { IsRead (word_of what) (rows_of (found_of matches.now)) result }
{
    let images = images_of(alloc, matches)?;
    if images.len() < 2 {
        let image = value_of(matches, "IMAGE");
        return Ok(Job::Look { what, image });
    }
    Ok(Job::Several { what, images })
}

/// The job that prints this of a disk alone, or with --as-is of the one in an image as that is; of one image, or of several.
fn viewing_disks<'a>(
    alloc: Global,
    matches: &ArgMatches<'a>,
    what: DiskLook,
) -> Result<Job<'a>, JobFault>
    requires { IsDiskAsked what (rows_of (found_of matches.now)) }
    ensures { IsRead (disk_word what) (rows_of (found_of matches.now)) result }
{
    if is_given(matches, "as-is") {
        viewing(alloc, matches, Look::AsIs(what))
    } else {
        viewing(alloc, matches, alone(what))
    }
}

/// The job that prints an object of JSON of each image.
fn describing<'a>(
    alloc: Global,
    matches: &ArgMatches<'a>,
    object: ImageObject,
) -> Result<Job<'a>, JobFault>
    requires asked { IsObjectAsked object (rows_of (found_of matches.now)) }
    requires json { given (codes "json") (rows_of (found_of matches.now)) ≡ true }
    ensures { IsRead (object_word object) (rows_of (found_of matches.now)) result }
{
    Ok(Job::Describe {
        form: ImageForm::Shown(object),
        images: images_of(alloc, matches)?,
    })
}

/// The job that lists disks.
pub(crate) fn list_job<'a>(alloc: Global, matches: &ArgMatches<'a>) -> Result<Job<'a>, JobFault>
    ensures { IsRead (codes "list") (rows_of (found_of matches.now)) result }
{
    if is_given(matches, "json") {
        let as_is = is_given(matches, "as-is");
        return describing(alloc, matches, ImageObject::List { as_is });
    }
    viewing_disks(alloc, matches, DiskLook::List(name_form(matches)))
}

/// The job that checks disks, or prints a row of a table of each with --csv. --json goes before --csv.
pub(crate) fn check_job<'a>(alloc: Global, matches: &ArgMatches<'a>) -> Result<Job<'a>, JobFault>
    ensures { IsRead (codes "check") (rows_of (found_of matches.now)) result }
{
    if is_given(matches, "json") {
        let as_is = is_given(matches, "as-is");
        return describing(alloc, matches, ImageObject::Check { as_is });
    }
    if is_given(matches, "csv") {
        let images = images_of(alloc, matches)?;
        if is_given(matches, "as-is") {
            let form = ImageForm::TableAsIs;
            return Ok(Job::Describe { form, images });
        }
        let form = ImageForm::Table;
        return Ok(Job::Describe { form, images });
    }
    if is_given(matches, "all") {
        viewing_disks(alloc, matches, DiskLook::Faults)
    } else {
        viewing_disks(alloc, matches, DiskLook::Check)
    }
}

/// The job that shows shops.
pub(crate) fn show_job<'a>(alloc: Global, matches: &ArgMatches<'a>) -> Result<Job<'a>, JobFault>
    ensures { IsRead (codes "show") (rows_of (found_of matches.now)) result }
{
    let loss = loss(matches);
    if is_given(matches, "json") {
        let as_is = is_given(matches, "as-is");
        return describing(alloc, matches, ImageObject::Show { loss, as_is });
    }
    viewing_disks(alloc, matches, DiskLook::Show(loss))
}

/// The job that plans what can be done for images.
pub(crate) fn plan_job<'a>(alloc: Global, matches: &ArgMatches<'a>) -> Result<Job<'a>, JobFault>
    ensures { IsRead (codes "plan") (rows_of (found_of matches.now)) result }
{
    Ok(Job::Describe {
        form: ImageForm::Planned(plan_form(matches)),
        images: images_of(alloc, matches)?,
    })
}

/// The job that draws maps of disks.
pub(crate) fn map_job<'a>(alloc: Global, matches: &ArgMatches<'a>) -> Result<Job<'a>, JobFault>
    ensures { IsRead (codes "map") (rows_of (found_of matches.now)) result }
{
    if is_given(matches, "json") {
        return describing(alloc, matches, ImageObject::Map);
    }
    viewing(alloc, matches, Look::Map)
}

/// The job that prints how many blocks of disks are free.
pub(crate) fn free_job<'a>(alloc: Global, matches: &ArgMatches<'a>) -> Result<Job<'a>, JobFault>
    ensures { IsRead (codes "free") (rows_of (found_of matches.now)) result }
{
    if is_given(matches, "json") {
        return describing(alloc, matches, ImageObject::Free);
    }
    viewing(alloc, matches, Look::Free)
}

/// The job that prints a sector.
pub(crate) fn sector_job<'a>(matches: &ArgMatches<'a>) -> Result<Job<'a>, JobFault>
    ensures { IsRead (codes "sector") (rows_of (found_of matches.now)) result }
{
    let what = Look::Sector(place_of(value_of(matches, "T/S"))?);
    let image = value_of(matches, "IMAGE");
    Ok(Job::Look { what, image })
}

/// The job that prints the records of a file.
pub(crate) fn records_job<'a>(matches: &ArgMatches<'a>) -> Result<Job<'a>, JobFault>
    ensures { IsRead (codes "records") (rows_of (found_of matches.now)) result }
{
    let form = record_form(matches)?;
    let what = Look::Records {
        form,
        candidates: candidates(matches),
        name: name_of(value_of(matches, "NAME"))?,
    };
    let image = value_of(matches, "IMAGE");
    Ok(Job::Look { what, image })
}

/// The job that prints the bytes of a file.
pub(crate) fn bytes_job<'a>(matches: &ArgMatches<'a>) -> Result<Job<'a>, JobFault>
    ensures { IsRead (codes "bytes") (rows_of (found_of matches.now)) result }
{
    let what = Look::Bytes {
        form: FileForm::Bytes(byte_form(matches)),
        candidates: candidates(matches),
        name: name_of(value_of(matches, "NAME"))?,
    };
    let image = value_of(matches, "IMAGE");
    Ok(Job::Look { what, image })
}

/// The job that prints the lines of a BASIC program.
pub(crate) fn basic_job<'a>(matches: &ArgMatches<'a>) -> Result<Job<'a>, JobFault>
    ensures { IsRead (codes "basic") (rows_of (found_of matches.now)) result }
{
    let what = Look::Bytes {
        form: FileForm::Listing,
        candidates: candidates(matches),
        name: name_of(value_of(matches, "NAME"))?,
    };
    let image = value_of(matches, "IMAGE");
    Ok(Job::Look { what, image })
}

/// Whether two forms of a picture are asked for, of which it has one.
fn has_two_forms<'a>(matches: &ArgMatches<'a>) -> bool
    ensures { result ≡ two_forms (rows_of (found_of matches.now)) }
{
    let sheet = is_given(matches, "sheet");
    let compare = is_given(matches, "compare");
    (is_given(matches, "svg") && (sheet || compare)) || (sheet && compare)
}

/// The job that draws a disk as a page or as a poster, or disks on a sheet, or compares two.
pub(crate) fn picture_job<'a>(alloc: Global, matches: &ArgMatches<'a>) -> Result<Job<'a>, JobFault>
    ensures { IsRead (codes "picture") (rows_of (found_of matches.now)) result }
{
    if has_two_forms(matches) {
        return Err(JobFault::Images);
    }
    let images = images_of(alloc, matches)?;
    if is_given(matches, "sheet") {
        if images.len() > MOST_TILES {
            return Err(JobFault::Images);
        }
        return Ok(Job::Sheet { images });
    }
    if is_given(matches, "compare") {
        if images.len() != 2 {
            return Err(JobFault::Images);
        }
        return Ok(Job::Compare {
            before: images[0],
            after: images[1],
        });
    }
    if images.len() >= 2 {
        return Err(JobFault::Images);
    }
    let image = value_of(matches, "IMAGE");
    if is_given(matches, "svg") {
        let what = Look::Poster;
        return Ok(Job::Look { what, image });
    }
    let what = Look::Picture;
    Ok(Job::Look { what, image })
}
