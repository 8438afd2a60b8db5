//! What a new file takes, chosen before anything is written.
ghost use Rattle.std.specs.Prelude.{◌≡◌, ◌≤◌, List, MatchOption, length};
ghost use Rattle.d64_image.specs.Images.{Image, sector};
ghost use Rattle.d64_image.specs.declared.place.Place.{Place};
ghost use Rattle.disk_layout.specs.Directory.{map_place};
ghost use Rattle.disk_layout.specs.Layout.{Layout};
ghost use Rattle.disk_layout.specs.Map.{IsMapOf};
ghost use Rattle.disk_layout.specs.View.{blocks_free};
ghost use Rattle.rel_records.specs.Usable.{IsUsableLayout};
ghost use Rattle.rel_records.specs.creation.Made.{HasNoRoomFor};
ghost use Rattle.rel_records.specs.creation.Site.{IsRoomOf, IsSite, TakesSectors};

use crate::creation::directory_room::Room;
use crate::growth::next_block::take_next;
use arrayvec::ArrayVec;
use d64_image::{Place, SECTORS};
use disk_layout::Bam;

/// What a new file takes: the map with its sectors taken, these sectors, and the slot of its entry.
#[derive(Drop)]
pub struct Site {
    /// The map in which they are taken.
    pub map: Bam,
    /// The file's sectors, in the order in which they were taken: of a relative file the data block and the side sector.
    pub blocks: ArrayVec<Place, SECTORS>,
    /// The directory sector that is written last: the one with the first free slot, or the directory's last if all slots
    /// are used.
    pub place: Place,
    /// Its bytes before that.
    pub bytes: [u8; 256],
    /// The new directory sector for the entry, if all slots are used.
    pub fresh: Option<Place>,
    /// The number of the entry's slot in its sector, from 0 to 7.
    pub number: u8,
    /// The entry's number among the used ones.
    pub entry: usize,
}

/// Takes this number of free sectors for data, and returns them in the order in which they were taken.
fn take_sectors(map: &mut Bam, count: usize) -> ArrayVec<Place, SECTORS>
    requires room { count ≤ blocks_free map.old.bytes }
    requires map { (owned : List Place) × IsMapOf map.old.bytes owned }
    ensures taken { TakesSectors map.old.bytes map.new.bytes result.items }
    ensures count { length result.items ≡ count }
{
    let mut places = ArrayVec::new();
    for _ in 0..count {
        places.push(take_next(map));
    }
    places
}

/// Takes a new file's sectors, this number of them, in the map of a disk that can be used, and one more for the
/// directory if it is full. None if they aren't free.
pub(crate) fn take_site(mut map: Bam, room: Room, count: usize) -> Option<Site>
    requires of { (img : Image) × (l : Layout) × IsUsableLayout img l × (map.bytes ≡ sector img map_place)
        × IsRoomOf img l room }
    ensures { (img : Image) → (l : Layout) → IsUsableLayout img l → map.bytes ≡ sector img map_place
        → IsRoomOf img l room → MatchOption result (HasNoRoomFor img l count)
        (λ site. IsSite img l count site × ¬ (HasNoRoomFor img l count)) }
{
    if (map.view().blocks_free() as usize) < count {
        return None;
    }
    let blocks = take_sectors(&mut map, count);
    let Room {
        place,
        bytes,
        before,
        number,
    } = room;
    match number {
        Some(number) => Some(Site {
            map,
            blocks,
            place,
            bytes,
            fresh: None,
            number,
            entry: 8 * before + number as usize,
        }),
        None => {
            let fresh = map.pick_directory()?;
            map.take(fresh);
            Some(Site {
                map,
                blocks,
                place,
                bytes,
                fresh: Some(fresh),
                number: 0,
                entry: 8 * (before + 1),
            })
        }
    }
}
