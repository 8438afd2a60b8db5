//! A story.
use crate::counts::{Counts, Event};
use crate::judging::{Found, shop_shown};
use crate::runs::{Ended, Program, count_strike, note, run};
use crate::stops::{Stop, see};
use crate::words::{NEW, Words};
use simulated_machine::{Acts, Machine, Plan, Random};
use simulated_shop::{Line, Shop};
use std::alloc::Global;

/// An older copy of the image, and the shop that it has.
#[derive(Drop)]
pub(crate) struct OldCopy {
    pub(crate) image: Vec<u8>,
    pub(crate) shop: Shop,
}

/// A story: a machine, and the shop that its files have to be.
#[derive(Drop)]
pub struct Story<'p, P: Program> {
    pub(crate) alloc: Global,
    pub(crate) program: &'p P,
    pub(crate) machine: Machine,
    pub(crate) random: Random,
    pub(crate) shop: Shop,
    pub(crate) counts: Counts,
    pub(crate) old: Option<OldCopy>,
    /// Whether the log beside the image may be that of a change. Such a log doesn't tag the image.
    pub(crate) is_untagged: bool,
    pub(crate) notes: Vec<u8>,
}

impl<'p, P: Program> Story<'p, P> {
    /// The story of this seed, of a shop that isn't made yet.
    pub fn new(alloc: Global, program: &'p P, seed: u64) -> Story<'p, P> {
        Story {
            alloc,
            program,
            machine: Machine::new(alloc),
            random: Random::new(seed),
            shop: Shop::new(4),
            counts: Counts::NONE,
            old: None,
            is_untagged: false,
            notes: Vec::new(alloc),
        }
    }

    /// How many events of each kind were played.
    pub fn counts(&self) -> Counts {
        self.counts
    }

    /// One call isn't made on this machine (`Machine::leave_out`).
    pub fn leave_out(&self, number: usize) {
        self.machine.leave_out(number);
    }

    /// One call is made late on this machine (`Machine::delay`).
    pub fn delay(&self, number: usize) {
        self.machine.delay(number);
    }

    /// Which calls were made after which other ones.
    pub fn acts(&self) -> Acts {
        self.machine.acts()
    }

    /// What was run since this was last asked, a line each.
    pub fn notes(&mut self) -> Vec<u8> {
        let mut notes = Vec::new(self.alloc);
        std::mem::swap(&mut self.notes, &mut notes);
        notes
    }

    /// Runs a command with this input, of which a read gives so many lines at most.
    pub(crate) fn run(
        &mut self,
        words: Words,
        input: Vec<u8>,
        lines: u64,
        plan: Plan,
    ) -> Result<Ended, Stop> {
        let ended = run(self.program, &self.machine, words, input, lines, plan);
        if !self.has_log() {
            self.is_untagged = false;
        }
        count_strike(&mut self.counts, &plan, &ended);
        match note(&mut self.notes, words, &plan, &ended) {
            Ok(()) => Ok(ended),
            Err(_) => Err(Stop::NoMemory),
        }
    }

    /// Runs a command without input, to which nothing happens.
    pub(crate) fn look(&mut self, words: Words) -> Result<Ended, Stop> {
        let input = Vec::new(self.alloc);
        self.run(words, input, 1, Plan::NONE)
    }

    /// The shop that a command shows, if it is the model's or the one after some first ones of these lines.
    pub(crate) fn shown(
        &mut self,
        words: Words,
        shop: &Shop,
        lines: &[Line],
    ) -> Result<Option<Found>, Stop> {
        let ended = self.look(words)?;
        if ended.status != 0 {
            return Ok(None);
        }
        shop_shown(self.alloc, shop, lines, ended.out.as_slice())
    }

    /// Ensures that the shop is the model's.
    pub(crate) fn see_shop(&mut self, words: Words, reason: &'static str) -> Result<(), Stop> {
        let shop = self.shop;
        let found = self.shown(words, &shop, &[])?;
        see(found.is_some(), reason)
    }

    /// In one of four stories links are refused, as on some file systems and network shares.
    fn draw_links(&mut self) -> Result<(), Stop> {
        if self.random.once_in(4) {
            self.counts.add(Event::Linkless, 1);
            self.machine.refuse_links();
            self.notes.extend_from_slice(b"links are refused\n")?;
        }
        Ok(())
    }

    /// Makes the shop.
    pub fn begin(&mut self) -> Result<(), Stop> {
        self.draw_links()?;
        let ended = self.look(&NEW)?;
        see(ended.status == 0, "no shop is made")
    }

    /// Plays the next step, after which power may go.
    pub fn step(&mut self) -> Result<(), Stop> {
        self.act()?;
        self.rest()
    }

    /// Does something.
    fn act(&mut self) -> Result<(), Stop> {
        match self.random.below(28) {
            0..=7 => self.serve(),
            8 | 9 => self.play_sync(),
            10 => self.play(),
            11..=16 => self.change(),
            17 => self.format(),
            18 => self.lock(),
            19 | 20 => self.hand(),
            21 => self.mend(),
            22 | 23 => self.format_over(),
            24 => self.serve_readers(),
            _ => self.read(),
        }
    }

    /// Serves so many lines that the log fills up and is made anew.
    pub fn fill_log(&mut self) -> Result<(), Stop> {
        self.counts.add(Event::Renewal, 1);
        self.serve_long()
    }
}
