//! A file that is no image, over which `format` makes a shop.
use crate::counts::Event;
use crate::judging::{see_failure, shop_shown};
use crate::runs::{Ended, Program, draw_plan, run, stop_at};
use crate::stops::{Stop, see};
use crate::stories::Story;
use crate::words::{FORMAT_OLD, IMAGE, OLD, SHOW_OLD};
use simulated_machine::{Counted, Plan};
use simulated_shop::Shop;

/// How many bytes more than an image a file has that is too long.
const MORE: usize = 683;

/// How often power goes when `format` has written all sectors, of which it hasn't synced the most.
const SEALINGS: usize = 4;

/// How many steps `format` has after that sync: it syncs the first sector of the directory, and the folder.
const SEALED: u64 = 2;

/// What is there before `format` writes over it, what `format` makes of it, and how many calls and steps that takes.
#[derive(Drop)]
struct Over {
    before: Vec<u8>,
    after: Vec<u8>,
    calls: u64,
    steps: u64,
}

impl<P: Program> Story<'_, P> {
    /// The bytes of the shop's image, after which others stand.
    fn long_old(&self) -> Result<Vec<u8>, Stop> {
        let mut bytes = self.machine.bytes_of(IMAGE)?;
        let length = bytes.len().saturating_add(MORE);
        bytes.resize(length, 1)?;
        Ok(bytes)
    }

    /// The bytes of a file: those of the shop's image, of which some last ones lack, or after which others stand, or none.
    fn draw_old(&mut self) -> Result<Vec<u8>, Stop> {
        let mut bytes = self.long_old()?;
        let image = bytes.len().saturating_sub(MORE);
        match self.random.below(3) {
            0 => bytes.clear(),
            1 => bytes.truncate(self.random.index(image)),
            _ => {}
        }
        Ok(bytes)
    }

    /// What `format` makes of such a file if nothing happens.
    fn made_over(&self, before: Vec<u8>) -> Result<Over, Stop> {
        let twin = self.machine.with_files(&[])?;
        twin.put_file(OLD, before.as_slice())?;
        let input = twin.copy_of(b"")?;
        let ended = run(self.program, &twin, &FORMAT_OLD, input, 1, Plan::NONE);
        see(
            ended.status == 0,
            "format doesn't write over a file that is no image",
        )?;
        Ok(Over {
            before,
            after: twin.bytes_of(OLD)?,
            calls: twin.calls(Counted::All),
            steps: twin.calls(Counted::Steps),
        })
    }

    /// There is the old file, or the shop that was made, or what is refused.
    fn see_old(&mut self, over: &Over, is_told: bool) -> Result<(), Stop> {
        let found = self.machine.bytes_of(OLD)?;
        if found.as_slice() == over.after.as_slice() {
            return Ok(());
        }
        see(
            !is_told,
            "a shop that format made over a file isn't there, though that was reported",
        )?;
        if found.as_slice() == over.before.as_slice() {
            return Ok(());
        }
        let ended = self.look(&SHOW_OLD)?;
        let is_new = ended.status == 0 && self.is_empty_shop(&ended)?;
        see(
            is_new || ended.status == 1,
            "of a file that format wrote over a third shop is left",
        )
    }

    /// Whether a command showed the shop that `format` makes. Its directory may be torn where no file has an entry.
    fn is_empty_shop(&self, ended: &Ended) -> Result<bool, Stop> {
        let found = shop_shown(self.alloc, &Shop::new(4), &[], ended.out.as_slice())?;
        Ok(found.is_some())
    }

    /// `format` makes a shop over such a file.
    fn format_by(&mut self, over: &Over, plan: Plan) -> Result<(), Stop> {
        self.counts.add(Event::Change, 1);
        self.machine.put_file(OLD, over.before.as_slice())?;
        let input = self.machine.copy_of(b"")?;
        let ended = self.run(&FORMAT_OLD, input, 1, plan)?;
        if !ended.is_stopped && ended.status != 0 {
            see_failure(&ended)?;
        }
        if ended.is_stopped || ended.status == 0 && self.random.once_in(2) {
            self.lose_power()?;
        }
        self.see_old(over, ended.out.as_slice().ends_with(b"\n"))?;
        self.machine.remove_file(OLD)?;
        Ok(())
    }

    /// `format` makes a shop over a file that is no image.
    pub(crate) fn format_over(&mut self) -> Result<(), Stop> {
        let before = self.draw_old()?;
        let over = self.made_over(before)?;
        let plan = draw_plan(&mut self.random, over.calls, over.steps);
        self.format_by(&over, plan)
    }

    /// Power goes while `format` syncs what it wrote over a file that is longer than an image, and that has all of an older shop.
    pub(crate) fn format_long(&mut self) -> Result<(), Stop> {
        let before = self.long_old()?;
        let over = self.made_over(before)?;
        for _ in 0..SEALINGS {
            self.format_by(&over, stop_at(over.steps.saturating_sub(SEALED)))?;
        }
        Ok(())
    }
}
