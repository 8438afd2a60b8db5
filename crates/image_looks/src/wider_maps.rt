//! Maps of tracks 36 to 40, which systems of other drives keep in 18/0.
ghost use Rattle.std.specs.Prelude.{◌≡◌, ◌<◌, ◌≤◌, ◌++◌, IfErr, IfOk, OnOk, length};
ghost use Rattle.command_faults.specs.declared.faults.CommandFault.TheVariants as faults;
ghost use Rattle.image_looks.specs.WiderMaps as maps;
ghost use Rattle.image_looks.specs.WiderMaps.{lines_of, maps_text};

use command_faults::CommandFault;
use std::alloc::Global;

/// Where 18/0 begins in an image.
const MAP: usize = 91_392;

/// How many bytes an image of 40 tracks has at least.
const FORTY_TRACKS: usize = 196_608;

/// A byte of 18/0.
fn byte_at(image: &[u8], at: usize) -> u8
    requires size { 196608 ≤ length image.now }
    requires at { at < 256 }
    ensures { result ≡ maps.byte_at image.now at }
{
    image[MAP + at]
}

/// Whether the four bytes from `at` on are a track's entry: how many of its 17 sectors are free, and a bit for each.
#[tactic(auto, unfolding(crate::specs::WiderMaps::is_entry))]
fn is_entry(image: &[u8], at: usize) -> bool
    requires size { 196608 ≤ length image.now }
    requires at { at < 252 }
    ensures { result ≡ maps.is_entry image.now at }
{
    let (low, middle, high) = (
        byte_at(image, at + 1),
        byte_at(image, at + 2),
        byte_at(image, at + 3),
    );
    let ones = low.count_ones() + middle.count_ones() + high.count_ones();
    high <= 1 && u32::from(byte_at(image, at)) == ones
}

/// Whether these five entries are those of tracks.
#[tactic(auto, unfolding(crate::specs::WiderMaps::are_entries))]
fn are_entries(image: &[u8], at: usize) -> bool
    requires size { 196608 ≤ length image.now }
    requires at { at < 236 }
    ensures { result ≡ maps.are_entries image.now at }
{
    let first = is_entry(image, at);
    let second = is_entry(image, at + 4);
    let third = is_entry(image, at + 8);
    let fourth = is_entry(image, at + 12);
    let fifth = is_entry(image, at + 16);
    first && (second && (third && (fourth && fifth)))
}

/// Whether a sector is free by one of these five entries.
#[tactic(auto, unfolding(crate::specs::WiderMaps::has_free))]
fn has_free(image: &[u8], at: usize) -> bool
    requires size { 196608 ≤ length image.now }
    requires at { at < 236 }
    ensures { result ≡ maps.has_free image.now at }
{
    let first = byte_at(image, at) > 0;
    let second = byte_at(image, at + 4) > 0;
    let third = byte_at(image, at + 8) > 0;
    let fourth = byte_at(image, at + 12) > 0;
    let fifth = byte_at(image, at + 16) > 0;
    first || (second || (third || (fourth || fifth)))
}

/// Whether a map of tracks 36 to 40 stands from `at` on.
fn is_map(image: &[u8], at: usize) -> bool
    requires size { 196608 ≤ length image.now }
    requires at { at < 236 }
    ensures { result ≡ maps.is_map image.now at }
{
    are_entries(image, at) && has_free(image, at)
}

/// Adds this line, if such a map stands from `at` on. The only error is `NoMemory`.
fn add_line(lines: &mut Vec<u8>, image: &[u8], at: usize, line: &[u8]) -> Result<(), CommandFault>
    requires size { 196608 ≤ length image.now }
    requires at { at < 236 }
    ensures ok { OnOk result (lines.new.items ≡ lines.old.items ++ maps.line_if (maps.is_map image.now at) line.now) }
    ensures err { IfErr result (λ fault. fault ≡ faults.NoMemory) }
{
    if !is_map(image, at) {
        return Ok(());
    }
    match lines.extend_from_slice(line) {
        Ok(()) => Ok(()),
        Err(_) => Err(CommandFault::NoMemory),
    }
}

/// The lines of an image of at least 40 tracks.
fn lines_of_long(alloc: Global, image: &[u8]) -> Result<Vec<u8>, CommandFault>
    requires { 196608 ≤ length image.now }
    ensures ok { IfOk result (λ lines. lines.items ≡ lines_of image.now) }
    ensures err { IfErr result (λ fault. fault ≡ faults.NoMemory) }
{
    let mut lines = Vec::new(alloc);
    add_line(&mut lines, image, 0xAC, b"DOLPHINDOS 36-40\n")?;
    add_line(&mut lines, image, 0xC0, b"SPEEDDOS 36-40\n")?;
    add_line(&mut lines, image, 0x90, b"PROLOGICDOS 36-40\n")?;
    Ok(lines)
}

/// A line for each system whose map of tracks 36 to 40 stands in 18/0 of an image that has these tracks: five entries as those of
/// tracks 1 to 35, by which a sector is free. DolphinDOS keeps it from byte AC on, SpeedDOS from C0 on, and PrologicDOS from 90 on. The
/// only error is `NoMemory`.
pub(crate) fn wider_maps(alloc: Global, image: &[u8]) -> Result<Vec<u8>, CommandFault>
    ensures ok { IfOk result (λ lines. lines.items ≡ maps_text image.now) }
    ensures err { IfErr result (λ fault. fault ≡ faults.NoMemory) }
{
    if image.len() < FORTY_TRACKS {
        return Ok(Vec::new(alloc));
    }
    lines_of_long(alloc, image)
}
