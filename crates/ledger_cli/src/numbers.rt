//! The numbers that the words give.
ghost use Rattle.std.specs.Prelude.{◌≡◌, ◌≤◌, MatchResult, None, Some};
ghost use Rattle.line_text.specs.Numbers.{number_in};
ghost use Rattle.rel_records.specs.File.{IsLength};
ghost use Rattle.ledger_cli.specs.Numbers.{place_if_both, spelled_place};
ghost use Rattle.ledger_cli.specs.declared.faults.JobFault.TheVariants as faults;

use crate::faults::JobFault;
use d64_image::Place;
use line_text::number;

/// The number of tills that a text spells: 1 to 64, in decimal digits without leading zeros. `Tills` if it spells none.
pub(crate) fn tills_of(text: &str) -> Result<u8, JobFault>
    ensures { MatchResult result (λ tills. (number_in 1 64 text.now ≡ Some tills) × (1 ≤ tills) × (tills ≤ 64))
        (λ fault. (fault ≡ faults.Tills) × (number_in 1 64 text.now ≡ None)) }
{
    match number(text.as_bytes(), 1, 64) {
        Some(tills) => Ok(tills as u8),
        None => Err(JobFault::Tills),
    }
}

/// The length of a record that a text spells: 1 to 254, in decimal digits without leading zeros. `Length` if it spells none.
pub(crate) fn length_of(text: &str) -> Result<u8, JobFault>
    ensures { MatchResult result (λ length. (number_in 1 254 text.now ≡ Some length) × IsLength length)
        (λ fault. (fault ≡ faults.Length) × (number_in 1 254 text.now ≡ None)) }
{
    match number(text.as_bytes(), 1, 254) {
        Some(length) => Ok(length as u8),
        None => Err(JobFault::Length),
    }
}

/// The track that a text spells: 1 to 35, in decimal digits without leading zeros.
fn track_of(text: &str) -> Option<u8>
    ensures { result ≡ number_in 1 35 text.now }
{
    match number(text.as_bytes(), 1, 35) {
        Some(track) => Some(track as u8),
        None => None,
    }
}

/// The number of a sector on its track that a text spells: 0 to 20, likewise.
fn sector_of(text: &str) -> Option<u8>
    ensures { result ≡ number_in 0 20 text.now }
{
    match number(text.as_bytes(), 0, 20) {
        Some(sector) => Some(sector as u8),
        None => None,
    }
}

/// The sector whose track the first text spells, and its number on that track the second.
fn place_with(first: &str, second: &str) -> Option<Place>
    ensures { result ≡ place_if_both (number_in 1 35 first.now) (number_in 0 20 second.now) }
{
    let Some(track) = track_of(first) else {
        return None;
    };
    let Some(sector) = sector_of(second) else {
        return None;
    };
    Place::new(track, sector)
}

/// The sector that a text names: its track, a slash and its number on that track.
fn place_named(text: &str) -> Option<Place>
    ensures { result ≡ spelled_place text.now }
{
    let Some((track, sector)) = text.split_once('/') else {
        return None;
    };
    place_with(track, sector)
}

/// The sector that a text names, such as 17/4. `Sector` if the text is that of no sector of a disk.
pub(crate) fn place_of(text: &str) -> Result<Place, JobFault>
    ensures { MatchResult result (λ place. spelled_place text.now ≡ Some place)
        (λ fault. (fault ≡ faults.Sector) × (spelled_place text.now ≡ None)) }
{
    match place_named(text) {
        Some(place) => Ok(place),
        None => Err(JobFault::Sector),
    }
}
