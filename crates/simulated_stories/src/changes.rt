//! Commands that change the disk, all or nothing.
use crate::counts::Event;
use crate::judging::see_failure;
use crate::runs::{Ended, Program, draw_plan, run};
use crate::stops::{Stop, see};
use crate::stories::Story;
use crate::words::{
    CHANGES, COPY, COPYING, FORMAT, IMAGE, LINES, PATHS, REPAIR_MAP, SCRIPT, SERVE, SHOW, Words,
    change_of,
};
use simulated_machine::{Counted, Machine, Plan};
use simulated_shop::Shop;
use std::io::Write;

/// The bytes of an image at which the map of its sectors begins, and how many it has.
const MAP: usize = 91_396;

const MAP_BYTES: usize = 140;

/// How many bytes a file has at most that is put on the disk, and how many records are stored.
const MOST_BYTES: usize = 30_000;

const MOST_RECORDS: u64 = 200;

/// What a command does when nothing happens to it: the image that was there, the one that it makes, and how it ends.
#[derive(Drop)]
pub(crate) struct Made {
    pub(crate) before: Vec<u8>,
    pub(crate) after: Vec<u8>,
    pub(crate) ended: Ended,
    calls: u64,
    pub(crate) steps: u64,
}

/// The words with which a change may be refused. A file that is taken back may own blocks that another one has by now.
static REFUSED: [&[u8]; 6] = [
    b"FILE EXISTS\n",
    b"NO FILE\n",
    b"SHOP FILE\n",
    b"LOCKED\n",
    b"DISK FULL\n",
    b"LAYOUT OWNEDTWICE ",
];

/// A change that is refused has a reason.
pub(crate) fn see_refusal(ended: &Ended) -> Result<(), Stop> {
    let mut is_known = ended.status == 0;
    for word in &REFUSED {
        is_known |= ended.status == 1 && ended.err.as_slice().starts_with(word);
    }
    see(is_known, "a change is refused for no reason")
}

/// What a run of a command reads as the image.
fn copied<P: Program>(program: &P, machine: &Machine) -> Result<Vec<u8>, Stop> {
    let input = machine.copy_of(b"")?;
    let ended = run(program, machine, &COPYING, input, 1, Plan::NONE);
    see(ended.status == 0, "the image can't be copied")?;
    let image = machine.bytes_of(COPY)?;
    machine.remove_file(COPY)?;
    Ok(image)
}

/// Whether a run did what another one did.
fn is_same(one: &Ended, other: &Ended) -> bool {
    one.status == other.status && one.out.as_slice() == other.out.as_slice()
}

impl<P: Program> Story<'_, P> {
    /// What a command makes of files that are as those of the machine.
    pub(crate) fn made(&self, words: Words) -> Result<Made, Stop> {
        let twin = self.machine.with_files(&PATHS)?;
        let before = copied(self.program, &twin)?;
        let input = twin.copy_of(b"")?;
        let ended = run(self.program, &twin, words, input, 1, Plan::NONE);
        let (calls, steps) = (twin.calls(Counted::All), twin.calls(Counted::Steps));
        let after = copied(self.program, &twin)?;
        Ok(Made {
            before,
            after,
            ended,
            calls,
            steps,
        })
    }

    /// The image is the one that was there or the one that the command makes. Whether it is this one.
    pub(crate) fn see_half(&mut self, made: &Made, is_told: bool) -> Result<bool, Stop> {
        let image = copied(self.program, &self.machine)?;
        let is_new = image.as_slice() == made.after.as_slice();
        let is_old = image.as_slice() == made.before.as_slice();
        see(is_new || is_old, "a change was made by half")?;
        see(is_new || !is_told, "a change that was reported isn't there")?;
        Ok(is_new)
    }

    /// What comes after a change that wasn't done. If power didn't go, another command first brings to the disk what is there: until
    /// then a loss of power may still decide whether the change is made.
    fn end_change(&mut self, ended: &Ended) -> Result<(), Stop> {
        if !ended.is_stopped {
            see_failure(ended)?;
        }
        let is_lost = ended.is_stopped && self.fall(true)?;
        self.recover()?;
        if !is_lost {
            self.look(&SERVE)?;
        }
        self.is_untagged = self.has_log();
        Ok(())
    }

    /// Runs a command that changes the disk. Whether the disk is the changed one then.
    fn change_by(&mut self, words: Words) -> Result<bool, Stop> {
        self.counts.add(Event::Change, 1);
        let made = self.made(words)?;
        see_refusal(&made.ended)?;
        let plan = draw_plan(&mut self.random, made.calls, made.steps);
        let input = self.machine.copy_of(b"")?;
        let ended = self.run(words, input, 1, plan)?;
        let is_told = ended.out.as_slice().ends_with(b"\n");
        let is_done = is_same(&ended, &made.ended);
        if ended.is_stopped || !is_done {
            self.end_change(&ended)?;
            let is_new = self.see_half(&made, is_told)?;
            return self.end_half(words, &made, is_new);
        }
        self.see_half(&made, true)
    }

    /// In one of two times the command that wasn't done is run again. Whether the disk is the changed one then.
    fn end_half(&mut self, words: Words, made: &Made, is_new: bool) -> Result<bool, Stop> {
        if self.random.once_in(2) {
            return Ok(is_new);
        }
        let image = if is_new { &made.after } else { &made.before };
        self.change_again(words, image.as_slice())?;
        Ok(true)
    }

    /// A command does what it does of this image alone: it ends so, and leaves that image, without a log.
    fn change_again(&mut self, words: Words, image: &[u8]) -> Result<(), Stop> {
        let twin = self.machine.with_files(&[SCRIPT, LINES])?;
        twin.put_file(IMAGE, image)?;
        let input = twin.copy_of(b"")?;
        let wanted = run(self.program, &twin, words, input, 1, Plan::NONE);
        let ended = self.look(words)?;
        see(
            is_same(&ended, &wanted),
            "a change that is made again ends otherwise than on the image that was found",
        )?;
        self.look(&SERVE)?;
        let is_left = self.machine.bytes_of(IMAGE)?.as_slice() == twin.bytes_of(IMAGE)?.as_slice();
        see(
            is_left && !self.has_log(),
            "a change that is made again leaves another image",
        )
    }

    /// What the changes put on the disk: a file of some bytes, and lines of some records.
    fn put_sources(&mut self) -> Result<(), Stop> {
        let mut bytes = self.machine.copy_of(b"some bytes of a file\r")?;
        if self.random.once_in(2) {
            let fill = (self.random.draw() % 256) as u8;
            bytes.resize(self.random.index(MOST_BYTES), fill)?;
        }
        self.machine.put_file(SCRIPT, bytes.as_slice())?;
        let mut lines = self.machine.copy_of(b"")?;
        for _ in 0..self.random.below(9) {
            let record = self.random.below(MOST_RECORDS).saturating_add(1);
            let text = self.random.draw();
            writeln!(&mut lines, "{record},\"{text}\"")?;
        }
        self.machine.put_file(LINES, lines.as_slice())?;
        Ok(())
    }

    /// Changes the disk, and leaves the shop as it is.
    pub(crate) fn change(&mut self) -> Result<(), Stop> {
        let words = change_of(self.random.below(CHANGES));
        self.put_sources()?;
        self.change_by(words)?;
        self.see_shop(&SHOW, "a change of the disk changed the shop")
    }

    /// Somebody hurts the map of the disk's sectors, and `repair` mends it.
    pub(crate) fn mend(&mut self) -> Result<(), Stop> {
        if self.has_log() {
            return Ok(());
        }
        let mut image = self.machine.bytes_of(IMAGE)?;
        for _ in 0..4 {
            let at = MAP.saturating_add(self.random.index(MAP_BYTES));
            let bits = (self.random.draw() % 256) as u8;
            if let Some(byte) = image.as_mut_slice().get_mut(at) {
                *byte ^= bits;
            }
        }
        self.machine.put_file(IMAGE, image.as_slice())?;
        if !self.change_by(&REPAIR_MAP)? {
            self.change_again(&REPAIR_MAP, image.as_slice())?;
        }
        self.see_shop(&SHOW, "a repair of the map changed the shop")
    }

    /// Makes the shop anew, now and then.
    pub(crate) fn format(&mut self) -> Result<(), Stop> {
        if self.change_by(&FORMAT)? {
            self.shop = Shop::new(4);
        }
        self.see_shop(&SHOW, "after format the shop isn't the old or an empty one")
    }
}
