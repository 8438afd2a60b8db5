//! The map of free sectors: which are free, which one is next, taking and giving back.
ghost use Rattle.std.specs.Prelude.{◌≡◌, ◌≢◌, ◌≤◌, ◌↔◌, IfOk, IsTrue, MatchOption, OnErr, length};

use crate::directory::{DIRECTORY_TRACK, map_place};
use crate::views::BamView;
use d64_image::{DeviceFault, Place, Sectors};

/// The 256 bytes of 18/0, in memory: the caller reads them, changes them, and then writes them back. Bytes 4 to 143 are
/// the map. It has four bytes for each track: its count of free sectors and a bit for each sector, 1 for free. No call
/// changes the other bytes, such as the disk's name.
#[derive(Clone, Copy, Debug, PartialEq, Eq)]
pub struct Bam {
    /// The bytes that the disk has or is to have.
    pub bytes: [u8; 256],
    pub ghost whole: { length bytes ≡ 256 },
}

impl Bam {
    ghost use Rattle.d64_image.specs.History.{OnlyReads, TellsFailure};
    ghost use Rattle.d64_image.specs.Images.{sector};
    ghost use Rattle.disk_layout.specs.Directory.{map_place};
    ghost use Rattle.disk_layout.specs.Map.{IsFree, IsTaken, IsGiven, IsFirstFree, IsFirstOn, IsFullDisk, IsFullTrack};

    /// The map in these bytes of 18/0.
    pub fn new(bytes: [u8; 256]) -> Bam
        ensures { result.bytes ≡ bytes }
    {
        Bam { bytes }
    }

    /// Reads 18/0.
    // Out of line: a caller clears 256 bytes for it at its start, even if it never reads.
    #[inline(never)]
    pub fn read<D: Sectors>(disk: &mut D) -> Result<Bam, DeviceFault>
        ensures ok { IfOk result (λ map. map.bytes ≡ sector (D.history.image disk.old) map_place) }
        ensures failures { TellsFailure D.history disk.old disk.new result }
        ensures failed { OnErr result (D.history.failed_at disk.new map_place) }
        ensures reads { OnlyReads D.history disk.old disk.new 1 }
    {
        let mut bytes = [0; 256];
        disk.read(map_place(), &mut bytes)?;
        Ok(Bam { bytes })
    }

    /// A view of these bytes: name, id and counts.
    pub fn view(&self) -> BamView<'_>
        ensures { result.bytes.now ≡ self.now.bytes }
    {
        BamView::new(&self.bytes)
    }

    /// Whether the sector is free in the map.
    pub fn is_free(&self, place: Place) -> bool
        ensures { IsTrue result ↔ IsFree self.now.bytes place }
    {
        self.view().is_free(place)
    }

    /// Takes a free sector: its bit becomes 0, and its track's count one less. If the sector isn't free, nothing
    /// changes.
    pub fn take(&mut self, place: Place)
        ensures taken { IsFree self.old.bytes place → IsTaken self.old.bytes self.new.bytes place }
        ensures not_free { ¬ (IsFree self.old.bytes place) → self.new.bytes ≡ self.old.bytes }
    {
        if self.is_free(place) {
            let sector = place.sector();
            let at = 4 * place.track() as usize;
            self.bytes[at] = self.bytes[at].saturating_sub(1);
            self.bytes[at + 1 + sector as usize / 8] ^= 1 << (sector % 8);
        }
    }

    /// Gives a sector back: its bit becomes 1, and its track's count one more. If the sector is free, nothing changes.
    pub fn give(&mut self, place: Place)
        ensures given { ¬ (IsFree self.old.bytes place) → IsGiven self.old.bytes self.new.bytes place }
        ensures free { IsFree self.old.bytes place → self.new.bytes ≡ self.old.bytes }
    {
        if !self.is_free(place) {
            let sector = place.sector();
            let at = 4 * place.track() as usize;
            self.bytes[at] = self.bytes[at].saturating_add(1);
            self.bytes[at + 1 + sector as usize / 8] ^= 1 << (sector % 8);
        }
    }

    /// The next sector for data: the first free one, on the tracks 17, 19, 16, 20 and so on to 1 and 35, the lowest
    /// sector first. Track 18 is left out. None if all others are taken.
    pub fn pick(&self) -> Option<Place>
        ensures { MatchOption result (IsFullDisk self.now.bytes) (IsFirstFree self.now.bytes) }
    {
        for distance in 1..18u8 {
            if let Some(place) = self.first_on(DIRECTORY_TRACK - distance) {
                return Some(place);
            }
            if let Some(place) = self.first_on(DIRECTORY_TRACK + distance) {
                return Some(place);
            }
        }
        None
    }

    /// The next sector for the directory: the lowest free one of track 18. None if all of them are taken.
    pub fn pick_directory(&self) -> Option<Place>
        ensures { MatchOption result (IsFullTrack self.now.bytes 18) (IsFirstOn self.now.bytes 18) }
    {
        self.first_on(DIRECTORY_TRACK)
    }

    /// The lowest free sector of a track.
    fn first_on(&self, track: u8) -> Option<Place>
        requires { track ≤ 35 }
        ensures { MatchOption result (IsFullTrack self.now.bytes track) (IsFirstOn self.now.bytes track) }
    {
        for eighth in 0..3u8 {
            let bits = self.bytes[4 * track as usize + 1 + eighth as usize];
            if bits != 0 {
                return Place::new(track, 8 * eighth + bits.trailing_zeros() as u8);
            }
        }
        None
    }
}
