//! What a check finds of an image, as an object.
ghost use Rattle.std.specs.Prelude.{◌≡◌, ◌≢◌, ◌↔◌, ◌≤◌, IfErr, IfOk, IsTrue, None, OnOk, length, map, option_map, slice_range, string_bytes};
ghost use Rattle.command_faults.specs.declared.faults.CommandFault.TheVariants as faults;
ghost use Rattle.damaged_files.specs.reached.Names.{disk_name as name_of_disk, name_of};
ghost use Rattle.disk_pictures.specs.Held.{drawn_in};
ghost use Rattle.json_looks.specs.Checks.{IsAllDrawn, IsCheckFault, IsCheckShown, IsRowShown, check_data, drawn_if, early_with, fewer_end, late_with, short_end, unchecked_data};
ghost use Rattle.disk_layout.specs.View.{blocks_free};
ghost use Rattle.hex.specs.Hex.{encode_lower};
ghost use Rattle.json_looks.specs.Entries.{count_if, typed};
ghost use Rattle.json_looks.specs.Missing.{beyond_items, misread_items};
ghost use Rattle.json_looks.specs.Objects.{IsObjectFault, IsObjectPrinted};
ghost use Rattle.line_text.specs.bytes.Texts.{text_of};
ghost use Rattle.json_looks.specs.Verdicts.{found_place, found_text};
ghost use Rattle.serde_json.specs.View.{members_view, view};
ghost use Rattle.sha1.specs.Sha1.{sha1};
ghost use Rattle.sha2.specs.Sha256.{sha256};

use crate::entries::typed_name;
use crate::missing::{misread_values, past_values};
use crate::printing::print_object;
use crate::verdicts::{is_whole, place_found, place_value, sector_if, track_if, verdict_text};
use arrayvec::ArrayVec;
use command_faults::{CommandFault, load};
use d64_image::Place;
use damaged_files::{Shortfall, disk_name, find_shortfall, first_tracks};
use disk_layout::{BamView, Fault, Slot, map_place};
use disk_pictures::{Drawing, drawn_of};
use disk_reports::{Missing, describe_as_is, list_files};
use layout_check::verdict;
use line_text::Text;
use serde_json::{Map, Value, json, put};
use sha1::Sha1;
use sha2::{Digest, Sha256};
use std::alloc::{AllocError, Global};
use std::io::Write;

/// What a check finds of a disk.
#[derive(Clone, Copy)]
struct Finding<'a> {
    /// The fault.
    found: Option<Fault>,
    /// The entries that it concerns.
    files: &'a [Slot],
    /// 18/0.
    map: &'a [u8; 256],
    /// What the files lack.
    lack: Option<Shortfall>,
    /// What is drawn of the disk, if its directory can be read.
    drawing: Option<&'a Drawing>,
}

/// What is drawn, if the directory could be read.
fn drawing_in(drawn: &Result<Drawing, Fault>) -> Option<&Drawing>
    ensures { option_map (λ drawing. drawn_in drawing.now) result ≡ drawn_if drawn.now }
{
    match drawn {
        Ok(drawing) => Some(drawing),
        Err(_) => None,
    }
}

/// Where the first file ends that is cut short.
fn short_place(lack: Option<Shortfall>) -> Option<Place>
    ensures { result ≡ short_end lack }
{
    match lack {
        Some(Shortfall::Short(place)) => Some(place),
        _ => None,
    }
}

/// Where the first file ends that has fewer blocks than its entry says.
fn fewer_place(lack: Option<Shortfall>) -> Option<Place>
    ensures { result ≡ fewer_end lack }
{
    match lack {
        Some(Shortfall::Fewer(place)) => Some(place),
        _ => None,
    }
}

/// The names of these entries, as they can be typed.
fn name_values(alloc: Global, slots: &[Slot]) -> Result<Vec<Value>, AllocError>
    ensures { IfOk result (λ values. map view values.items ≡ map (λ slot. typed (name_of slot)) slots.now) }
{
    let mut values = Vec::new(alloc);
    for slot in slots {
        values.push(Value::String(typed_name(alloc, slot)?))?;
    }
    Ok(values)
}

/// The objects of the places at which files go on past track 35, if the files are drawn.
fn beyond_values(
    alloc: Global,
    image: &[u8],
    drawing: Option<&Drawing>,
) -> Result<Vec<Value>, AllocError>
    requires { 174848 ≤ length image.now }
    ensures { IfOk result (λ values. map view values.items
        ≡ beyond_items image.now (option_map (λ drawn. drawn_in drawn.now) drawing.entry)) }
{
    match drawing {
        Some(drawing) => past_values(alloc, image, drawing.files.as_slice()),
        None => Ok(Vec::new(alloc)),
    }
}

/// The name of a disk, as it can be typed.
fn disk_text(alloc: Global, map: &[u8; 256]) -> Result<String, AllocError>
    ensures { IfOk result (λ text. string_bytes text ≡ text_of (name_of_disk map.now)) }
{
    match format!(in alloc; "{}", Text(disk_name(map))) {
        Ok(text) => Ok(text),
        Err(_) => Err(AllocError),
    }
}

/// The ID of a disk, as it can be typed.
fn id_text(alloc: Global, map: &[u8; 256]) -> Result<String, AllocError>
    ensures { IfOk result (λ text. string_bytes text ≡ text_of (slice_range map.now 162 164)) }
{
    match format!(in alloc; "{}", Text(BamView::new(map).id())) {
        Ok(text) => Ok(text),
        Err(_) => Err(AllocError),
    }
}

/// A number, if there is one; null otherwise.
fn count_value(number: Option<u8>) -> Value
    ensures { view result ≡ count_if number }
{
    match number {
        Some(number) => Value::from(number),
        None => Value::Null,
    }
}

/// The members of the object of a check from `name` on.
fn late_members(
    alloc: Global,
    name: &str,
    image: &[u8],
    found: Option<Fault>,
    short: Value,
) -> Result<Map<String, Value>, AllocError>
    ensures { IfOk result (λ map. members_view map.entries ≡ late_with name.now (encode_lower (sha1 image.now))
        (encode_lower (sha256 image.now)) (found_text found) (length image.now) (found_place found) (view short)) }
{
    let place = place_found(found);
    let verdict = verdict_text(alloc, found)?;
    let of_sha256 = hex::encode(alloc, Sha256::digest(image))?;
    let of_sha1 = hex::encode(alloc, Sha1::digest(image))?;
    // A member is put before those that are there, so that none is passed.
    let mut map = Map::new(alloc);
    put(&mut map, alloc, "verdict", Value::String(verdict))?;
    put(&mut map, alloc, "track", count_value(track_if(place)))?;
    put(&mut map, alloc, "size", Value::from(image.len()))?;
    put(&mut map, alloc, "short", short)?;
    put(&mut map, alloc, "sha256", Value::String(of_sha256))?;
    put(&mut map, alloc, "sha1", Value::String(of_sha1))?;
    put(&mut map, alloc, "sector", count_value(sector_if(place)))?;
    put(&mut map, alloc, "name", Value::try_from_str(alloc, name)?)?;
    Ok(map)
}

/// The object of an image of which this was found, with these values of its members.
fn object_with(
    alloc: Global,
    name: &str,
    image: &[u8],
    finding: Finding<'_>,
    beyond: Vec<Value>,
    errors: Vec<Value>,
    files: Vec<Value>,
    fewer: Value,
    short: Value,
) -> Result<Value, AllocError>
    ensures { IfOk result (λ value. view value ≡ early_with (text_of (name_of_disk finding.entry.map.now))
        (text_of (slice_range finding.entry.map.now 162 164)) (blocks_free finding.entry.map.now) (map view beyond.items)
        (map view errors.items) (map view files.items) (view fewer) (late_with name.now (encode_lower (sha1 image.now))
        (encode_lower (sha256 image.now)) (found_text finding.entry.found) (length image.now) (found_place finding.entry.found)
        (view short))) }
{
    let id = id_text(alloc, finding.map)?;
    let disk = disk_text(alloc, finding.map)?;
    let mut map = late_members(alloc, name, image, finding.found, short)?;
    put(&mut map, alloc, "id", Value::String(id))?;
    put(
        &mut map,
        alloc,
        "free",
        Value::from(BamView::new(finding.map).blocks_free()),
    )?;
    put(&mut map, alloc, "files", Value::Array(files))?;
    put(&mut map, alloc, "fewer", fewer)?;
    put(&mut map, alloc, "errors", Value::Array(errors))?;
    put(&mut map, alloc, "disk", Value::String(disk))?;
    put(&mut map, alloc, "beyond", Value::Array(beyond))?;
    Ok(Value::Object(map))
}

/// The object of an image of which this was found.
fn check_value(
    alloc: Global,
    name: &str,
    image: &[u8],
    finding: Finding<'_>,
) -> Result<Value, AllocError>
    requires { 174848 ≤ length image.now }
    ensures { IfOk result (λ value. view value ≡ check_data name.now image.now finding.entry.found finding.entry.files.now
        finding.entry.map.now finding.entry.lack (option_map (λ drawn. drawn_in drawn.now) finding.entry.drawing)) }
{
    let beyond = beyond_values(alloc, image, finding.drawing)?;
    let errors = misread_values(alloc, image, finding.drawing)?;
    let files = name_values(alloc, finding.files)?;
    let fewer = place_value(alloc, fewer_place(finding.lack))?;
    let short = place_value(alloc, short_place(finding.lack))?;
    object_with(
        alloc, name, image, finding, beyond, errors, files, fewer, short,
    )
}

/// Whether a check found nothing, and all is there that the image says of itself; not if nothing is drawn.
fn is_clean(image: &[u8], found: Option<Fault>, drawing: Option<&Drawing>) -> bool
    requires { 174848 ≤ length image.now }
    ensures { IsTrue result ↔ (found ≡ None) × IsAllDrawn image.now (option_map (λ drawn. drawn_in drawn.now) drawing.entry) }
{
    match drawing {
        Some(drawing) => is_whole(image, found, drawing),
        None => false,
    }
}

/// Checks the disk in an image of 35, 40 or 42 tracks, with error bytes or without, and prints what is found as an object of JSON in a
/// line: the image's name, size and hashes; the first fault, as `check` prints it, its track and sector, and the names of the files that
/// it concerns; the free blocks as the map counts them, the disk's name and id; the sector where the first file ends that is cut short,
/// or that has fewer blocks than its entry says; the sectors that weren't read; and where files go on past track 35. Returns whether
/// there is no fault, each sector was read, and no file goes on there.
///
/// `ImageSize`; `NoMemory`: nothing was printed then. `File` if the output failed, which may then have a part.
pub fn check_object<W: Write>(
    alloc: Global,
    name: &str,
    image: &[u8],
    out: &mut W,
) -> Result<bool, CommandFault>
    ensures ok { IfOk result (IsCheckShown W.contents name.now image.now out.old out.new) }
    ensures err { IfErr result (IsCheckFault image.now) }
    // At a refusal something was printed only if the output failed.
    ensures untouched { IfErr result (λ fault. (fault ≢ faults.File) → out.new ≡ out.old) }
{
    let Some(tracks) = first_tracks(image) else {
        return Err(CommandFault::ImageSize);
    };
    let drawn = drawn_of(alloc, tracks)?;
    let mut disk = load(alloc, tracks)?;
    let found = verdict(&mut disk);
    let mut files = ArrayVec::new();
    list_files(&mut disk, found, &mut files);
    let lack = find_shortfall(&mut disk);
    let finding = Finding {
        found,
        files: files.as_slice(),
        map: disk.sector(map_place()),
        lack,
        drawing: drawing_in(&drawn),
    };
    let Ok(value) = check_value(alloc, name, image, finding) else {
        return Err(CommandFault::NoMemory);
    };
    print_object(alloc, &value, out)?;
    Ok(is_clean(image, finding.found, finding.drawing))
}

/// How many sectors of an image weren't read, and at how many places files go on past track 35: as many as its object has.
fn count_missing(
    alloc: Global,
    image: &[u8],
    drawing: Option<&Drawing>,
) -> Result<Missing, AllocError>
    requires { 174848 ≤ length image.now }
    ensures { IfOk result (λ missing.
        (missing.errors ≡ length (misread_items image.now (option_map (λ drawn. drawn_in drawn.now) drawing.entry)))
        × (missing.beyond ≡ length (beyond_items image.now (option_map (λ drawn. drawn_in drawn.now) drawing.entry)))) }
{
    let errors = misread_values(alloc, image, drawing)?.len();
    let beyond = beyond_values(alloc, image, drawing)?.len();
    Ok(Missing { errors, beyond })
}

/// Checks the disk in an image as `check_object` does, and prints what is found as a row of a table (`describe_as_is`). Returns whether
/// there is no fault, each sector was read, and no file goes on past track 35.
///
/// `ImageSize`; `NoMemory`: nothing was printed then. `File` if the output failed, which may then have a part.
pub fn check_row<W: Write>(
    alloc: Global,
    name: &str,
    image: &[u8],
    out: &mut W,
) -> Result<bool, CommandFault>
    ensures ok { IfOk result (IsRowShown W.contents name.now image.now out.old out.new) }
    ensures err { IfErr result (IsCheckFault image.now) }
    // At a refusal something was printed only if the output failed.
    ensures untouched { IfErr result (λ fault. (fault ≢ faults.File) → out.new ≡ out.old) }
{
    let Some(tracks) = first_tracks(image) else {
        return Err(CommandFault::ImageSize);
    };
    let drawn = drawn_of(alloc, tracks)?;
    let mut disk = load(alloc, tracks)?;
    let found = verdict(&mut disk);
    let lack = find_shortfall(&mut disk);
    let drawing = drawing_in(&drawn);
    let Ok(missing) = count_missing(alloc, image, drawing) else {
        return Err(CommandFault::NoMemory);
    };
    let map = disk.sector(map_place());
    describe_as_is(name.as_bytes(), image, found, map, lack, missing, out)?;
    Ok(is_clean(image, found, drawing))
}

/// The object of an image that is refused.
fn unchecked_value(
    alloc: Global,
    name: &str,
    size: Option<u64>,
    why: &str,
) -> Result<Value, AllocError>
    ensures { IfOk result (λ value. view value ≡ unchecked_data name.now size why.now) }
{
    json!(in alloc; {
        "verdict": why,
        "track": null,
        "size": size,
        "short": null,
        "sha256": null,
        "sha1": null,
        "sector": null,
        "name": name,
        "id": null,
        "free": null,
        "files": [],
        "fewer": null,
        "errors": [],
        "disk": null,
        "beyond": []
    })
}

/// Prints the object of the image of this name that is refused for this reason, with the size of its file in bytes, if it is known.
///
/// `NoMemory`: nothing was printed. `File` if the output failed, which may then have a part.
pub fn print_unchecked<W: Write>(
    alloc: Global,
    name: &str,
    size: Option<u64>,
    why: &str,
    out: &mut W,
) -> Result<(), CommandFault>
    ensures ok { OnOk result (IsObjectPrinted W.contents (unchecked_data name.now size why.now) out.old out.new) }
    ensures err { IfErr result IsObjectFault }
    ensures untouched { IfErr result (λ fault. (fault ≢ faults.File) → out.new ≡ out.old) }
{
    let Ok(value) = unchecked_value(alloc, name, size, why) else {
        return Err(CommandFault::NoMemory);
    };
    print_object(alloc, &value, out)
}
