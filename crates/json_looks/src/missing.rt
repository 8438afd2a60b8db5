//! What an image hasn't besides its disk, as objects: the sectors that weren't read, and where files go on past track 35.
ghost use Rattle.std.specs.Prelude.{◌≡◌, ◌++◌, ◌∷◌, ◌≤◌, [], IfOk, OnOk, Some, flat_map, length, map, option_map, string_bytes};
ghost use Rattle.d64_image.specs.Places.{places};
ghost use Rattle.damaged_files.specs.reached.Names.{name_of};
ghost use Rattle.disk_pictures.specs.Drawings.{file_in};
ghost use Rattle.disk_pictures.specs.Held.{drawn_in};
ghost use Rattle.disk_pictures.specs.Trims.{entry_at, error_number};
ghost use Rattle.disk_pictures.specs.PastErrors.{entry_past as entry_past_of};
ghost use Rattle.json_looks.specs.Missing.{error_item, error_items, misread_items, past_error_item, past_error_items, past_item, past_items, string_if};
ghost use Rattle.long_chains.specs.Sectors.{error_in as error_in_of};
ghost use Rattle.line_text.specs.bytes.Texts.{text_of};
ghost use Rattle.serde_json.specs.View.{view};

use crate::entries::typed_name;
use d64_image::{Place, SECTORS};
use damaged_files::error_at;
use disk_layout::Slot;
use disk_pictures::{
    Drawing, DrawnFile, ErrorNumber, blocks_past, entry_past, entry_with, sides_past,
};
use long_chains::{error_in, misread_past, place_past};
use serde_json::{Value, json};
use std::alloc::{AllocError, Global};

/// The drive's number of an error byte, as a text.
fn error_text(alloc: Global, error: u8) -> Result<String, AllocError>
    ensures { IfOk result (λ text. string_bytes text ≡ error_number error) }
{
    match format!(in alloc; "{}", ErrorNumber(error)) {
        Ok(text) => Ok(text),
        Err(_) => Err(AllocError),
    }
}

/// The value of an error byte; null if there is none.
pub(crate) fn error_value(alloc: Global, error: Option<u8>) -> Result<Value, AllocError>
    ensures { IfOk result (λ value. view value ≡ string_if (option_map error_number error)) }
{
    match error {
        Some(error) => Ok(Value::String(error_text(alloc, error)?)),
        None => Ok(Value::Null),
    }
}

/// The name of the entry that has a sector, as it can be typed; null if none has it.
fn name_value(alloc: Global, entry: Option<&Slot>) -> Result<Value, AllocError>
    ensures { IfOk result (λ value. view value ≡ string_if (option_map (λ slot. text_of (name_of slot.now)) entry.entry)) }
{
    match entry {
        Some(slot) => Ok(Value::String(typed_name(alloc, slot)?)),
        None => Ok(Value::Null),
    }
}

/// The object of a sector that wasn't read: the error, the file that has it, and where it is.
fn error_object(
    alloc: Global,
    place: Place,
    entry: Option<&Slot>,
    error: u8,
) -> Result<Value, AllocError>
    ensures { IfOk result (λ value. view value ∷ []
        ≡ error_item place (option_map (λ slot. slot.now) entry.entry) (Some error)) }
{
    let name = name_value(alloc, entry)?;
    let number = error_text(alloc, error)?;
    json!(in alloc; {
        "track": place.track(),
        "sector": place.sector(),
        "name": name,
        "error": number
    })
}

/// The object of a sector past track 35 that wasn't read, the same as of others.
fn past_error_object(
    alloc: Global,
    number: u16,
    entry: Option<&Slot>,
    error: u8,
) -> Result<Value, AllocError>
    ensures { IfOk result (λ value. view value ∷ []
        ≡ past_error_item number (option_map (λ slot. slot.now) entry.entry) (Some error)) }
{
    let name = name_value(alloc, entry)?;
    let told = error_text(alloc, error)?;
    let (track, sector) = place_past(number);
    json!(in alloc; {
        "track": track,
        "sector": sector,
        "name": name,
        "error": told
    })
}

/// Adds the object of a sector, if it wasn't read.
fn add_error(
    alloc: Global,
    place: Place,
    entry: Option<&Slot>,
    error: Option<u8>,
    values: &mut Vec<Value>,
) -> Result<(), AllocError>
    ensures { OnOk result (map view values.new.items
        ≡ map view values.old.items ++ error_item place (option_map (λ slot. slot.now) entry.entry) error) }
{
    if let Some(error) = error {
        values.push(error_object(alloc, place, entry, error)?)?;
    }
    Ok(())
}

/// Adds the object of a sector past track 35, if it wasn't read.
fn add_past_error(
    alloc: Global,
    number: u16,
    entry: Option<&Slot>,
    error: Option<u8>,
    values: &mut Vec<Value>,
) -> Result<(), AllocError>
    ensures { OnOk result (map view values.new.items
        ≡ map view values.old.items ++ past_error_item number (option_map (λ slot. slot.now) entry.entry) error) }
{
    if let Some(error) = error {
        values.push(past_error_object(alloc, number, entry, error)?)?;
    }
    Ok(())
}

/// Adds the objects of those of these sectors that weren't read.
fn add_errors_at(
    alloc: Global,
    image: &[u8],
    drawing: Option<&Drawing>,
    numbers: &[u16],
    values: &mut Vec<Value>,
) -> Result<(), AllocError>
    ensures { OnOk result (map view values.new.items ≡ map view values.old.items ++ flat_map (λ n. past_error_item n
        (entry_past_of image.now (option_map (λ drawn. drawn_in drawn.now) drawing.entry) n) (error_in_of image.now n)) numbers.now) }
{
    for &number in numbers {
        let (entry, error) = (entry_past(image, drawing, number), error_in(image, number));
        add_past_error(alloc, number, entry, error, values)?;
    }
    Ok(())
}

/// Adds the objects of the sectors past track 35 that weren't read, each with the first entry that has it if the files are drawn.
fn add_past_errors(
    alloc: Global,
    image: &[u8],
    drawing: Option<&Drawing>,
    values: &mut Vec<Value>,
) -> Result<(), AllocError>
    ensures { OnOk result (map view values.new.items ≡ map view values.old.items
        ++ past_error_items image.now (option_map (λ drawn. drawn_in drawn.now) drawing.entry)) }
{
    let misread = misread_past(image);
    add_errors_at(alloc, image, drawing, misread.as_slice(), values)
}

/// The objects of the sectors that weren't read, in the order of an image, each with the first entry that has it if the files are drawn.
pub(crate) fn misread_values(
    alloc: Global,
    image: &[u8],
    drawing: Option<&Drawing>,
) -> Result<Vec<Value>, AllocError>
    ensures { IfOk result (λ values. map view values.items
        ≡ misread_items image.now (option_map (λ drawn. drawn_in drawn.now) drawing.entry)) }
{
    let mut values = error_values(alloc, image, drawing)?;
    add_past_errors(alloc, image, drawing, &mut values)?;
    Ok(values)
}

/// The objects of the sectors of tracks 1 to 35 that weren't read, in the order of an image, each with the first entry that has it if
/// the files are drawn.
fn error_values(
    alloc: Global,
    image: &[u8],
    drawing: Option<&Drawing>,
) -> Result<Vec<Value>, AllocError>
    ensures { IfOk result (λ values. map view values.items
        ≡ error_items image.now (option_map (λ drawn. drawn_in drawn.now) drawing.entry)) }
{
    let mut values = Vec::new(alloc);
    for index in 0..SECTORS {
        let place = Place::nth(index);
        let (entry, error) = (entry_with(drawing, place), error_at(image, place));
        add_error(alloc, place, entry, error, &mut values)?;
    }
    Ok(values)
}

/// The object of a place where the file of this entry goes on past track 35.
fn past_value(alloc: Global, slot: &Slot, place: Place) -> Result<Value, AllocError>
    ensures { IfOk result (λ value. view value ∷ [] ≡ past_item slot.now (Some place)) }
{
    let name = typed_name(alloc, slot)?;
    json!(in alloc; {"name": name, "sector": place.sector(), "track": place.track()})
}

/// Adds the object of such a place, if there is one.
fn add_past(
    alloc: Global,
    slot: &Slot,
    place: Option<Place>,
    values: &mut Vec<Value>,
) -> Result<(), AllocError>
    ensures { OnOk result (map view values.new.items ≡ map view values.old.items ++ past_item slot.now place) }
{
    if let Some(place) = place {
        values.push(past_value(alloc, slot, place)?)?;
    }
    Ok(())
}

/// Adds the objects of a file: where its blocks go on past track 35, and where its side sectors do.
fn add_file_past(
    alloc: Global,
    image: &[u8],
    file: &DrawnFile,
    values: &mut Vec<Value>,
) -> Result<(), AllocError>
    requires { 174848 ≤ length image.now }
    ensures { OnOk result (map view values.new.items ≡ map view values.old.items ++ past_items image.now (file_in file.now)) }
{
    add_past(alloc, &file.slot, blocks_past(image, file), values)?;
    add_past(alloc, &file.slot, sides_past(image, file), values)
}

/// The objects of the places at which files go on past track 35.
pub(crate) fn past_values(
    alloc: Global,
    image: &[u8],
    files: &[DrawnFile],
) -> Result<Vec<Value>, AllocError>
    requires { 174848 ≤ length image.now }
    ensures { IfOk result (λ values. map view values.items ≡ flat_map (past_items image.now) (map file_in files.now)) }
{
    let mut values = Vec::new(alloc);
    for file in files {
        add_file_past(alloc, image, file, &mut values)?;
    }
    Ok(values)
}
