//! The blocks of a file that a drive couldn't read when the image was made.
ghost use Rattle.std.specs.Prelude.{◌≡◌, ◌++◌, ◌∷◌, [], IfErr, IfOk, OnOk, Some, filter};
ghost use Rattle.file_rescues.specs.rescue.Errors as errors;
ghost use Rattle.file_rescues.specs.rescue.Errors.{error_number, errors_text, misread_in, misread_past_text, misread_text, more_errors, more_past};
ghost use Rattle.command_faults.specs.declared.faults.CommandFault.TheVariants as faults;

use crate::rescue::art::is_art;
use crate::rescue::rescuing::Rescued;
use command_faults::CommandFault;
use d64_image::Place;
use damaged_files::error_at;
use long_chains::{error_in, place_past};
use std::alloc::Global;
use std::fmt::{self, Display, Formatter};

/// The drive's number of an error byte.
#[derive(Clone, Copy)]
struct ErrorNumber(u8);

impl Display for ErrorNumber {
    ghost output = { λ error. Some (error_number error.0) };

    fn fmt<W: fmt::Write>(&self, f: &mut Formatter<W>) -> fmt::Result {
        match self.0 {
            2..=11 => write!(f, "{}", self.0 + 18),
            15 => f.write_str("74"),
            byte => write!(f, "BYTE{byte}"),
        }
    }
}

/// A block of an image, and how it wasn't read; nothing if it was.
#[derive(Clone, Copy)]
struct Misread<'a> {
    image: &'a [u8],
    place: Place,
}

impl Display for Misread<'_> {
    ghost output = { λ block. Some (misread_text block.image.now block.place) };

    fn fmt<W: fmt::Write>(&self, f: &mut Formatter<W>) -> fmt::Result {
        let Some(error) = error_at(self.image, self.place) else {
            return Ok(());
        };
        let (track, sector) = (self.place.track(), self.place.sector());
        write!(f, "{track}/{sector}:{}", ErrorNumber(error))
    }
}

/// A sector of an image past track 35, by its number, and how it wasn't read; nothing if it was.
#[derive(Clone, Copy)]
struct MisreadPast<'a> {
    image: &'a [u8],
    number: u16,
}

impl Display for MisreadPast<'_> {
    ghost output = { λ block. Some (misread_past_text block.image.now block.number) };

    fn fmt<W: fmt::Write>(&self, f: &mut Formatter<W>) -> fmt::Result {
        let Some(error) = error_in(self.image, self.number) else {
            return Ok(());
        };
        let (track, sector) = place_past(self.number);
        write!(f, "{track}/{sector}:{}", ErrorNumber(error))
    }
}

/// Blocks of an image that weren't read, each after a space.
#[derive(Clone, Copy)]
struct MoreErrors<'a> {
    image: &'a [u8],
    places: &'a [Place],
}

impl Display for MoreErrors<'_> {
    ghost output = { λ more. Some (more_errors more.image.now more.places.now) };

    fn fmt<W: fmt::Write>(&self, f: &mut Formatter<W>) -> fmt::Result {
        for &place in self.places {
            let image = self.image;
            write!(f, " {}", Misread { image, place })?;
        }
        Ok(())
    }
}

/// Sectors of an image past track 35 that weren't read, each after a space.
#[derive(Clone, Copy)]
struct MorePast<'a> {
    image: &'a [u8],
    numbers: &'a [u16],
}

impl Display for MorePast<'_> {
    ghost output = { λ more. Some (more_past more.image.now more.numbers.now) };

    fn fmt<W: fmt::Write>(&self, f: &mut Formatter<W>) -> fmt::Result {
        for &number in self.numbers {
            let image = self.image;
            write!(f, " {}", MisreadPast { image, number })?;
        }
        Ok(())
    }
}

/// Blocks of an image that weren't read, as the index has them.
#[derive(Clone, Copy)]
pub(crate) struct Errors<'a> {
    /// The image, with its error bytes.
    pub image: &'a [u8],
    /// Those of the tracks 1 to 35.
    pub places: &'a [Place],
    /// The numbers of those past track 35.
    pub past: &'a [u16],
}

impl Display for Errors<'_> {
    ghost output = { λ errors. Some (errors_text errors.image.now errors.places.now errors.past.now) };

    fn fmt<W: fmt::Write>(&self, f: &mut Formatter<W>) -> fmt::Result {
        let image = self.image;
        match (self.places, self.past) {
            ([], []) => Ok(()),
            ([], &[number, ref numbers @ ..]) => {
                let (first, others) = (MisreadPast { image, number }, MorePast { image, numbers });
                write!(f, "{first}{others}")
            }
            (&[place, ref places @ ..], numbers) => {
                let (first, others) = (Misread { image, place }, MoreErrors { image, places });
                write!(f, "{first}{others}{}", MorePast { image, numbers })
            }
        }
    }
}

/// Whether this block wasn't read.
fn is_misread(image: &[u8], place: Place) -> bool
    ensures { result ≡ errors.is_misread image.now place }
{
    error_at(image, place).is_some()
}

/// Adds this block, if it wasn't read. The only error is `NoMemory`.
fn add_misread(places: &mut Vec<Place>, image: &[u8], place: Place) -> Result<(), CommandFault>
    ensures ok { OnOk result
        (places.new.items ≡ places.old.items ++ filter (errors.is_misread image.now) (place ∷ [])) }
    ensures err { IfErr result (λ fault. fault ≡ faults.NoMemory) }
{
    if !is_misread(image, place) {
        return Ok(());
    }
    if places.push(place).is_err() {
        return Err(CommandFault::NoMemory);
    }
    Ok(())
}

/// Those of these blocks that weren't read. The only error is `NoMemory`.
fn misread_among(alloc: Global, image: &[u8], blocks: &[Place]) -> Result<Vec<Place>, CommandFault>
    ensures ok { IfOk result (λ places. places.items ≡ filter (errors.is_misread image.now) blocks.now) }
    ensures err { IfErr result (λ fault. fault ≡ faults.NoMemory) }
{
    let mut places = Vec::new(alloc);
    for &place in blocks {
        add_misread(&mut places, image, place)?;
    }
    Ok(places)
}

/// Those blocks of a file that weren't read: none of directory art, which has no file. The only error is `NoMemory`.
pub(crate) fn misread_blocks(
    alloc: Global,
    image: &[u8],
    file: &Rescued,
) -> Result<Vec<Place>, CommandFault>
    ensures ok { IfOk result (λ places. places.items ≡ misread_in image.now file.now) }
    ensures err { IfErr result (λ fault. fault ≡ faults.NoMemory) }
{
    if is_art(&file.slot) {
        return Ok(Vec::new(alloc));
    }
    misread_among(alloc, image, file.blocks.as_slice())
}

/// Whether this sector is past track 35, and wasn't read.
fn is_misread_past(image: &[u8], number: u16) -> bool
    ensures { result ≡ errors.is_misread_past image.now number }
{
    683 <= number && error_in(image, number).is_some()
}

/// Adds this sector, if it is past track 35 and wasn't read. The only error is `NoMemory`.
fn add_misread_past(numbers: &mut Vec<u16>, image: &[u8], number: u16) -> Result<(), CommandFault>
    ensures ok { OnOk result
        (numbers.new.items ≡ numbers.old.items ++ filter (errors.is_misread_past image.now) (number ∷ [])) }
    ensures err { IfErr result (λ fault. fault ≡ faults.NoMemory) }
{
    if !is_misread_past(image, number) {
        return Ok(());
    }
    if numbers.push(number).is_err() {
        return Err(CommandFault::NoMemory);
    }
    Ok(())
}

/// Those of these sectors that are past track 35 and weren't read. The only error is `NoMemory`.
fn past_among(alloc: Global, image: &[u8], sectors: &[u16]) -> Result<Vec<u16>, CommandFault>
    ensures ok { IfOk result (λ numbers. numbers.items ≡ filter (errors.is_misread_past image.now) sectors.now) }
    ensures err { IfErr result (λ fault. fault ≡ faults.NoMemory) }
{
    let mut numbers = Vec::new(alloc);
    for &number in sectors {
        add_misread_past(&mut numbers, image, number)?;
    }
    Ok(numbers)
}

/// Those sectors of a file past track 35 that weren't read: none of directory art, which has no file. The only error is `NoMemory`.
pub(crate) fn misread_past(
    alloc: Global,
    image: &[u8],
    file: &Rescued,
) -> Result<Vec<u16>, CommandFault>
    ensures ok { IfOk result (λ numbers. numbers.items ≡ errors.misread_past image.now file.now) }
    ensures err { IfErr result (λ fault. fault ≡ faults.NoMemory) }
{
    if is_art(&file.slot) {
        return Ok(Vec::new(alloc));
    }
    past_among(alloc, image, file.sectors.as_slice())
}
