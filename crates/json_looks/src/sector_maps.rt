//! Which sector of an image is whose, as an object.
ghost use Rattle.std.specs.Prelude.{◌≡◌, ◌≢◌, ◌≤◌, IfErr, IfOk, length, map};
ghost use Rattle.command_faults.specs.declared.faults.CommandFault.TheVariants as faults;
ghost use Rattle.d64_image.specs.Places.{places};
ghost use Rattle.damaged_files.specs.reached.Sizes.{disk_of};
ghost use Rattle.disk_pictures.specs.Held.{drawn_in};
ghost use Rattle.disk_pictures.specs.Outcomes.{IsPictureFault};
ghost use Rattle.json_looks.specs.Entries.{entry_data};
ghost use Rattle.json_looks.specs.SectorMaps.{IsMapShown, file_number, kind_of, map_data, map_with, sector_data};
ghost use Rattle.serde_json.specs.View.{view};

use crate::entries::entry_value;
use crate::missing::{error_value, past_values};
use crate::printing::print_object;
use crate::verdicts::{is_whole, place_found, place_value, sector_if, track_if, verdict_text};
use command_faults::CommandFault;
use d64_image::{Place, SECTORS};
use damaged_files::{disk_in, error_at};
use disk_layout::{BamView, Fault};
use disk_pictures::{Drawing, DrawnFile, Owner, Verdict, judged};
use serde_json::{Value, json};
use std::alloc::{AllocError, Global};
use std::io::Write;

/// What a sector is, by a word: the map's, the directory's, a file's, free or taken.
fn kind_name(map: &[u8; 256], place: Place, owner: Owner) -> &'static str
    ensures { result.now ≡ kind_of map.now place owner }
{
    match owner {
        Owner::Map => "map",
        Owner::Directory => "directory",
        Owner::Blocks(_) => "block",
        Owner::Sides(_) => "side",
        Owner::Nobody if BamView::new(map).is_free(place) => "free",
        Owner::Nobody => "taken",
    }
}

/// The file that has the sector, by its number in the directory, from 0.
fn number_of(owner: Owner) -> Option<usize>
    ensures { result ≡ file_number owner }
{
    match owner {
        Owner::Blocks(number) | Owner::Sides(number) => Some(number),
        _ => None,
    }
}

/// The object of a sector: how it was read, and whose it is.
fn sector_value(
    alloc: Global,
    image: &[u8],
    drawing: &Drawing,
    place: Place,
) -> Result<Value, AllocError>
    ensures { IfOk result (λ value. view value ≡ sector_data image.now drawing.now.map (drawn_in drawing.now) place) }
{
    let error = error_value(alloc, error_at(image, place))?;
    let owner = drawing.owner(place);
    json!(in alloc; {
        "error": error,
        "file": number_of(owner),
        "kind": kind_name(&drawing.map, place, owner),
        "sector": place.sector(),
        "track": place.track()
    })
}

/// The objects of all sectors, in the order of an image.
fn sector_values(alloc: Global, image: &[u8], drawing: &Drawing) -> Result<Vec<Value>, AllocError>
    ensures { IfOk result (λ values. map view values.items
        ≡ map (sector_data image.now drawing.now.map (drawn_in drawing.now)) places) }
{
    let mut values = Vec::new(alloc);
    for index in 0..SECTORS {
        values.push(sector_value(alloc, image, drawing, Place::nth(index))?)?;
    }
    Ok(values)
}

/// The objects of the files' entries.
fn file_values(alloc: Global, files: &[DrawnFile]) -> Result<Vec<Value>, AllocError>
    ensures { IfOk result (λ values. map view values.items ≡ map (λ file. entry_data file.slot) files.now) }
{
    let mut values = Vec::new(alloc);
    for file in files {
        values.push(entry_value(alloc, &file.slot)?)?;
    }
    Ok(values)
}

/// The object of an image with these places past track 35, entries and sectors, where a file is cut short, and what a check finds.
fn map_of(
    alloc: Global,
    name: &str,
    beyond: Vec<Value>,
    files: Vec<Value>,
    sectors: Vec<Value>,
    short: Value,
    found: Option<Fault>,
) -> Result<Value, AllocError>
    ensures { IfOk result (λ value. view value ≡ map_with name.now (map view beyond.items) (map view files.items)
        (map view sectors.items) (view short) found) }
{
    let verdict = verdict_text(alloc, found)?;
    let place = place_found(found);
    json!(in alloc; {
        "verdict": verdict,
        "track": track_if(place),
        "short": short,
        "sectors": sectors,
        "sector": sector_if(place),
        "refused": null,
        "name": name,
        "files": files,
        "beyond": beyond
    })
}

/// The object of an image with this drawn, and this reported by a check.
fn map_value(
    alloc: Global,
    name: &str,
    image: &[u8],
    drawing: &Drawing,
    verdict: Verdict,
) -> Result<Value, AllocError>
    requires { 174848 ≤ length image.now }
    ensures { IfOk result (λ value. view value ≡ map_data name.now image.now verdict drawing.now.map (drawn_in drawing.now)) }
{
    let beyond = past_values(alloc, image, drawing.files.as_slice())?;
    let files = file_values(alloc, drawing.files.as_slice())?;
    let sectors = sector_values(alloc, image, drawing)?;
    let short = place_value(alloc, verdict.cut)?;
    map_of(alloc, name, beyond, files, sectors, short, verdict.found)
}

/// Prints whose each sector of an image of this name is, as an object of JSON in a line: the 683 sectors of tracks 1 to 35 in their
/// order, each with the error with which a drive read it, the entries of the directory, where files go on past track 35, and what a
/// check finds. `image` has 35, 40 or 42 tracks, with error bytes or without. Returns whether a check finds no fault, each sector was
/// read, and no file goes on past track 35.
///
/// `ImageSize`; `NoMemory`; `Layout` if the directory's sectors aren't a chain on track 18: nothing was printed then. `File` if the
/// output failed, which may then have a part.
pub fn map_object<W: Write>(
    alloc: Global,
    name: &str,
    image: &[u8],
    out: &mut W,
) -> Result<bool, CommandFault>
    ensures ok { IfOk result (IsMapShown W.contents name.now image.now out.old out.new) }
    ensures err { IfErr result (IsPictureFault (disk_of image.now)) }
    // At a refusal something was printed only if the output failed.
    ensures untouched { IfErr result (λ fault. (fault ≢ faults.File) → out.new ≡ out.old) }
{
    let (drawing, verdict) = judged(alloc, disk_in(image))?;
    let Ok(value) = map_value(alloc, name, image, &drawing, verdict) else {
        return Err(CommandFault::NoMemory);
    };
    print_object(alloc, &value, out)?;
    Ok(is_whole(image, verdict.found, &drawing))
}
