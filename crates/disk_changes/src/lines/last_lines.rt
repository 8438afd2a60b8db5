//! Which line of each record is its last one.
ghost use Rattle.std.specs.Prelude.{◌≡◌, ◌≢◌, ◌↔◌, ◌<◌, ◌≤◌, ℕ, [], IfErr, IfOk, IsTrue, length, slice_index};
ghost use Rattle.std.specs.Prelude.{vec_capacity};
ghost use Rattle.disk_changes.specs.lines.Stores.{TellsLast};
ghost use Rattle.command_faults.specs.declared.faults.CommandFault.TheVariants as faults;

use command_faults::CommandFault;
use std::alloc::Global;

/// One more than the greatest number that a line can have.
const NUMBERS: usize = 182_881;

/// The last line of each record that a line can be of, among those that were counted, from 1 on; 0 if none is of it.
#[derive(Drop)]
pub(crate) struct LastLines {
    /// By the record's number, up to the greatest that was counted: memory that isn't touched costs no time.
    places: Vec<usize>,
    ghost room: { 182881 ≤ vec_capacity places },
}

impl LastLines {
    /// No line is counted yet. `NoMemory` if there is none for the table.
    pub(crate) fn none(alloc: Global) -> Result<LastLines, CommandFault>
        ensures ok { IfOk result (λ last. TellsLast last.places.items []) }
        ensures err { IfErr result (λ fault. fault ≡ faults.NoMemory) }
    {
        match Vec::with_capacity(alloc, NUMBERS) {
            Ok(places) => Ok(LastLines { places }),
            Err(_) => Err(CommandFault::NoMemory),
        }
    }

    /// Goes on with zeros until the record has a place.
    fn reach(&mut self, number: u32)
        requires { number ≤ 182880 }
        ensures there { number < length self.new.places.items }
        ensures same { (n : ℕ) → slice_index self.new.places.items n ≡ slice_index self.old.places.items n }
    {
        while self.places.len() <= number as usize {
            self.places.push(0).unwrap();
        }
    }

    /// The line at this place is of this record.
    pub(crate) fn count(&mut self, number: u32, place: usize)
        requires { number ≤ 182880 }
        ensures here { slice_index self.new.places.items number ≡ place }
        ensures others { (n : ℕ) → n ≢ number
            → slice_index self.new.places.items n ≡ slice_index self.old.places.items n }
    {
        self.reach(number);
        self.places[number as usize] = place;
    }

    /// Whether the last line of this record is at this place.
    pub(crate) fn is_last(&self, number: u32, place: usize) -> bool
        ensures { IsTrue result ↔ (slice_index self.now.places.items number ≡ place) }
    {
        self.places.get(number as usize).copied().unwrap_or(0) == place
    }
}
