//! What one program does to the files while another one reads.
use crate::calls::Call;
use crate::random::Random;
use std::alloc::Global;
use std::io;

/// Something that a program did.
#[derive(Drop)]
pub(crate) enum Deed {
    /// It changed files.
    Changed(Call),
    /// It locked a file so that others may read it.
    Shared,
    /// It printed so many bytes.
    Printed(usize),
}

/// What a program did in a run, in its order.
#[derive(Drop)]
pub struct Record {
    deeds: Vec<Deed>,
}

impl Record {
    /// A record without deeds.
    pub fn new(alloc: Global) -> Record {
        Record {
            deeds: Vec::new(alloc),
        }
    }

    /// Adds a deed.
    pub(crate) fn add(&mut self, deed: Deed) -> io::Result<()> {
        Ok(self.deeds.push(deed)?)
    }

    /// How many deeds there are.
    pub fn count(&self) -> usize {
        self.deeds.len()
    }

    /// How many there are up to the last one with which others were let read, that one too; none if there is no such deed.
    pub fn count_alone(&self) -> usize {
        let mut count = 0;
        for (at, deed) in self.deeds.iter().enumerate() {
            if matches!(deed, Deed::Shared) {
                count = at.saturating_add(1);
            }
        }
        count
    }

    /// How many bytes the first ones of them printed, of which there are so many.
    pub fn printed(&self, count: usize) -> usize {
        let mut bytes = 0usize;
        for deed in self.deeds.iter().take(count) {
            if let Deed::Printed(more) = deed {
                bytes = bytes.saturating_add(*more);
            }
        }
        bytes
    }

    /// The deed of this number.
    pub(crate) fn deed(&self, number: usize) -> Option<&Deed> {
        self.deeds.get(number)
    }
}

/// A program that goes on while another one reads.
#[derive(Drop)]
pub(crate) struct Other {
    pub(crate) record: Record,
    /// The number of the next deed.
    pub(crate) next: usize,
    /// Before a call of the other program it does fewer deeds than so many.
    pub(crate) most: u64,
    pub(crate) random: Random,
}

impl Other {
    /// One that does nothing.
    pub(crate) fn none(alloc: Global) -> Other {
        Other {
            record: Record::new(alloc),
            next: 0,
            most: 0,
            random: Random::new(0),
        }
    }
}
