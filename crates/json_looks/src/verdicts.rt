//! What a check finds, as members of an object.
ghost use Rattle.std.specs.Prelude.{◌≡◌, ◌↔◌, ◌≤◌, [], IfOk, IsTrue, None, length, option_map, string_bytes};
ghost use Rattle.disk_layout.specs.Texts.{place_text};
ghost use Rattle.disk_pictures.specs.Held.{drawn_in};
ghost use Rattle.json_looks.specs.Missing.{string_if};
ghost use Rattle.json_looks.specs.Verdicts.{IsImageThere, found_place, found_text};
ghost use Rattle.long_chains.specs.Sectors.{misread_past as misread_past_of};
ghost use Rattle.serde_json.specs.View.{view};

use d64_image::Place;
use disk_layout::Fault;
use disk_pictures::{Drawing, is_all_there};
use long_chains::misread_past;
use serde_json::Value;
use std::alloc::{AllocError, Global};

/// What a check finds, as it is printed.
pub(crate) fn verdict_text(alloc: Global, found: Option<Fault>) -> Result<String, AllocError>
    ensures { IfOk result (λ text. string_bytes text ≡ found_text found) }
{
    let text = match found {
        Some(fault) => format!(in alloc; "{fault}"),
        None => format!(in alloc; "OK"),
    };
    match text {
        Ok(text) => Ok(text),
        Err(_) => Err(AllocError),
    }
}

/// A place as a text, such as `17/0`.
fn text_of_place(alloc: Global, place: Place) -> Result<String, AllocError>
    ensures { IfOk result (λ text. string_bytes text ≡ place_text place) }
{
    let (track, sector) = (place.track(), place.sector());
    match format!(in alloc; "{track}/{sector}") {
        Ok(text) => Ok(text),
        Err(_) => Err(AllocError),
    }
}

/// The text of a place; null if there is none.
pub(crate) fn place_value(alloc: Global, place: Option<Place>) -> Result<Value, AllocError>
    ensures { IfOk result (λ value. view value ≡ string_if (option_map place_text place)) }
{
    match place {
        Some(place) => Ok(Value::String(text_of_place(alloc, place)?)),
        None => Ok(Value::Null),
    }
}

/// Where the fault is that a check found, if it found one.
pub(crate) fn place_found(found: Option<Fault>) -> Option<Place>
    ensures { result ≡ found_place found }
{
    found.map(Fault::place)
}

/// The track of a place, if there is one.
pub(crate) fn track_if(place: Option<Place>) -> Option<u8>
    ensures { result ≡ option_map (λ p. p.track) place }
{
    place.map(Place::track)
}

/// The sector of a place, if there is one.
pub(crate) fn sector_if(place: Option<Place>) -> Option<u8>
    ensures { result ≡ option_map (λ p. p.sector) place }
{
    place.map(Place::sector)
}

/// Whether each sector of tracks 36 to 42 was read.
fn is_read_past(image: &[u8]) -> bool
    ensures { IsTrue result ↔ (misread_past_of image.now ≡ []) }
{
    misread_past(image).is_empty()
}

/// Whether the image has all that it says of itself: each sector was read, and no file that is drawn goes on past track 35.
fn is_image_there(image: &[u8], drawing: &Drawing) -> bool
    requires { 174848 ≤ length image.now }
    ensures { IsTrue result ↔ IsImageThere image.now (drawn_in drawing.now) }
{
    let there = is_all_there(image, drawing);
    let read = is_read_past(image);
    there && read
}

/// Whether a check found nothing, and the image has all that it says of itself: each sector was read, and no file goes on past track 35.
pub(crate) fn is_whole(image: &[u8], found: Option<Fault>, drawing: &Drawing) -> bool
    requires { 174848 ≤ length image.now }
    ensures { IsTrue result ↔ (found ≡ None) × IsImageThere image.now (drawn_in drawing.now) }
{
    let there = is_image_there(image, drawing);
    found.is_none() && there
}
