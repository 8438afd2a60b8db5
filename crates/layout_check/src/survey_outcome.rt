//! What a survey of a disk found: the owner of each sector, and the number of entries.
ghost use Rattle.std.specs.Prelude.{IsFalse, IsTrue};
ghost use Rattle.layout_check.specs.Open.{IsOpen, IsShut};

use crate::owners::{NOBODY, Owners};
use d64_image::Place;
use disk_layout::Fault;
use std::ops::Range;

/// The owner of each sector of a sound disk, and the number of entries, at the time of the survey.
#[derive(Drop)]
pub struct Survey {
    owners: Owners,
    entries: usize,
}

/// A survey, and a fault that was kept back because only a clean disk must not have it.
#[derive(Drop)]
pub(crate) struct Findings {
    /// The owners and the entries.
    pub(crate) survey: Survey,
    /// The first fault, in the order of the directory, that a sound disk may have and a clean one may not: a side
    /// sector whose bytes aren't exact, or a wrong block count. It holds if the whole disk is sound. None if all are
    /// right.
    pub(crate) unclean: Option<Fault>,
}

/// The indices of the sectors of track 18.
const TRACK_18: Range<usize> = 357..376;

/// Whether the sector with this index and this owner's number is outside track 18, and no other entry than this one
/// owns it.
fn is_open(entry: usize, index: usize, number: u8) -> bool
    ensures open { IsTrue result → IsOpen entry index number }
    ensures shut { IsFalse result → IsShut entry index number }
{
    !TRACK_18.contains(&index) && (number == NOBODY || number as usize == entry)
}

impl Survey {
    ghost use Rattle.std.specs.Prelude.{◌≡◌, ◌∷◌, ◌+◌, ◌<◌, ◌↔◌, Contains, length};
    ghost use Rattle.disk_layout.specs.Directory.{map_place};
    ghost use Rattle.disk_layout.specs.Layout.{Layout, owners};
    ghost use Rattle.disk_layout.specs.Rest.{taken_by_others};
    ghost use Rattle.layout_check.specs.Survey.{IsSurveyOf, entries_of};

    /// The survey with these owners and this number of entries.
    pub(crate) fn new(owners: Owners, entries: usize) -> Survey
        ensures owners { result.owners ≡ owners }
        ensures entries { result.entries ≡ entries }
    {
        Survey { owners, entries }
    }

    /// The table of owners, for the caller.
    pub(crate) fn into_owners(self) -> Owners
        ensures { result ≡ self.owners }
    {
        self.owners
    }

    /// The table of owners.
    pub(crate) fn owners(&self) -> &Owners
        ensures { result.now ≡ self.now.owners }
    {
        &self.owners
    }

    /// Whether the map, the directory, or a file by its blocks or side sectors owns this sector.
    pub fn is_owned(&self, place: Place) -> bool
        ensures { (l : Layout) → IsSurveyOf l self.now → (IsTrue result ↔ Contains (map_place ∷ owners l) place) }
    {
        self.owners.is_owned(place)
    }

    /// How many entries the directory has: its used slots.
    pub fn entries(&self) -> usize
        ensures files { (l : Layout) → IsSurveyOf l self.now → result ≡ length l.files }
        ensures count { result ≡ entries_of self.now }
    {
        self.entries
    }

    /// How many of the 664 sectors outside track 18 no other entry owns: those without an owner, and those of the entry
    /// with this number, which is its position among the used entries, from 0. If there is no such entry, the sectors
    /// that no entry owns.
    pub fn outside(&self, entry: usize) -> u16
        ensures { (l : Layout) → IsSurveyOf l self.now → result + taken_by_others l entry ≡ 664 }
    {
        let mut count = 0;
        for (index, &number) in self.owners.numbers().iter().enumerate() {
            if is_open(entry, index, number) {
                count += 1;
            }
        }
        count
    }
}
