//! Stray sectors, which are taken in the map but owned by nobody, are given an owner so that they stay taken.
ghost use Rattle.std.specs.Prelude.{◌≡◌, ◌≢◌, ◌⊎◌, ◌≤◌, ⊤, IfOk, IsFalse, IsTrue, List, length};
ghost use Rattle.d64_image.specs.declared.place.Place.{Place};
ghost use Rattle.d64_image.specs.History.{OnlyReads};
ghost use Rattle.disk_layout.specs.Map.{IsFree};
ghost use Rattle.layout_check.specs.Keeping.{AreMarked, IsTakenTable};
ghost use Rattle.layout_check.specs.Mended.{TellsDevice};
ghost use Rattle.layout_check.specs.Owners.{owner_of};
ghost use Rattle.layout_check.specs.Survey.{IsToldBy};

use crate::owners::Owners;
use crate::survey_outcome::Survey;
use d64_image::{Place, SECTORS, Sectors};
use disk_layout::{BamView, Fault, map_place, read_sector};

/// The number of a stray sector: it is taken in the map, but nobody owns it.
const STRAY: u8 = 253;

/// Whether this sector is taken in the map, and has no owner.
fn is_stray(map: &[u8; 256], owners: &Owners, place: Place) -> bool
    ensures stray { IsTrue result → ¬ (IsFree map.now place) × ¬ (owner_of owners.now place ≢ 255) }
    ensures other { IsFalse result → IsFree map.now place ⊎ (owner_of owners.now place ≢ 255) }
{
    !BamView::new(map).is_free(place) && !owners.is_owned(place)
}

/// Gives this sector an owner, if it is stray. Returns how many sectors got one, 0 or 1.
fn mark_place(map: &[u8; 256], owners: &mut Owners, place: Place) -> u16
    ensures marked { (ps : List Place)
        × AreMarked map.now owners.old owners.new (λ p. p ≡ place) ps × (result ≡ length ps) }
    ensures one { result ≤ 1 }
{
    if !is_stray(map, owners, place) {
        return 0;
    }
    owners.set(place, STRAY);
    1
}

/// Gives the stray sectors of the disk an owner. Returns how many these are.
fn mark_strays(map: &[u8; 256], owners: &mut Owners) -> u16
    ensures marked { (ps : List Place)
        × AreMarked map.now owners.old owners.new (λ p. ⊤) ps × (result ≡ length ps) }
{
    let mut count = 0;
    for index in 0..SECTORS {
        count += mark_place(map, owners, Place::nth(index));
    }
    count
}

/// The sectors of a sound disk that are owned, by its survey, or stray: taken in the map but owned by nobody. Returns
/// the number of stray sectors too.
pub(crate) fn taken_sectors<D: Sectors>(disk: &mut D, found: Survey) -> Result<(Owners, u16), Fault>
    requires { IsToldBy (D.history.image disk.old) found }
    ensures table { IfOk result (λ taken. IsTakenTable (D.history.image disk.old) taken.0 taken.1) }
    ensures reads { OnlyReads D.history disk.old disk.new 1 }
    ensures failures { TellsDevice D.history disk.old disk.new result }
{
    let mut map = [0u8; 256];
    read_sector(disk, map_place(), &mut map)?;
    let mut owners = found.into_owners();
    let strays = mark_strays(&map, &mut owners);
    Ok((owners, strays))
}
