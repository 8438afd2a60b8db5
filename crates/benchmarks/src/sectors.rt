//! Sectors that are read and written, through a caller that knows only the trait.
ghost use Rattle.std.specs.Prelude.{◌≡◌, ◌≤◌, ◌+◌, IfOk, OnErr, OnOk, slice_index};
ghost use Rattle.d64_image.specs.History.{TellsFailure};
ghost use Rattle.d64_image.specs.Images.{put, sector};
ghost use Rattle.d64_image.specs.Places.{index_of};
ghost use Rattle.benchmarks.specs.Rounds.{raised};
ghost use Rattle.benchmarks.specs.Walks.{next_index};

use d64_image::{DeviceFault, Place, Sectors};

/// The next place on the disk: the next sector of the track, or the first of the next track; after the last place the
/// first.
fn next_place(place: Place) -> Place
    ensures { index_of result ≡ next_index (index_of place) }
{
    match Place::new(place.track(), place.sector() + 1) {
        Some(next) => next,
        None => match Place::new(place.track() + 1, 0) {
            Some(next) => next,
            None => Place::default(),
        },
    }
}

/// Reads a sector, adds 1 to one of its bytes (255 becomes 0) and writes it back. The answer is that byte.
fn raise<D: Sectors>(disk: &mut D, place: Place, at: u8) -> Result<u8, DeviceFault>
    ensures ok { OnOk result
        (D.history.image disk.new
        ≡ put (D.history.image disk.old) place (raised at (sector (D.history.image disk.old) place))) }
    ensures byte { IfOk result (λ byte. byte ≡ slice_index (raised at (sector (D.history.image disk.old) place)) at) }
    ensures reads { D.history.reads disk.new ≤ D.history.reads disk.old + 1 }
    ensures writes { D.history.writes disk.new ≤ D.history.writes disk.old + 1 }
    ensures err { OnErr result (D.history.writes disk.new ≡ D.history.writes disk.old) }
    ensures failures { TellsFailure D.history disk.old disk.new result }
{
    let mut bytes = [0; 256];
    disk.read(place, &mut bytes)?;
    let byte = bytes[at as usize].wrapping_add(1);
    bytes[at as usize] = byte;
    disk.write(place, &bytes)?;
    Ok(byte)
}

/// Raises the first byte of so many sectors, one after another over the disk, and sums up the bytes. Each sum is 31 times
/// the one before and the byte, without what is above 64 bits.
pub fn run<D: Sectors>(disk: &mut D, rounds: u64) -> Result<u64, DeviceFault>
    ensures reads { D.history.reads disk.new ≤ D.history.reads disk.old + rounds }
    ensures writes { D.history.writes disk.new ≤ D.history.writes disk.old + rounds }
    ensures failures { TellsFailure D.history disk.old disk.new result }
{
    let mut place = Place::default();
    let mut sum = 0u64;
    for round in 0..rounds {
        sum = sum
            .wrapping_mul(31)
            .wrapping_add(u64::from(raise(disk, place, (round % 256) as u8)?));
        place = next_place(place);
    }
    Ok(sum)
}
