//! Commands that only read, and locks of other programs.
use crate::counts::Event;
use crate::judging::{OK, after_top, see_failure, shop_shown};
use crate::runs::{Ended, Program, draw_plan};
use crate::stops::{Stop, see};
use crate::stories::Story;
use crate::words::{CHECK, COPY, COPY_MAKING, COPYING, IMAGE, SERVE, SHOW, SHOW_COPY, Words};
use simulated_machine::{Lock, Plan};

/// What `copy` prints.
const COPIED: &[u8] = b"COPIED\n";

/// What is reported of an image that another program has.
const IN_USE: &[u8] = b"IN USE\n";

impl<P: Program> Story<'_, P> {
    /// What a command that reads printed is right, if it is done.
    fn see_read(&mut self, words: Words, ended: &Ended) -> Result<(), Stop> {
        let out = ended.out.as_slice();
        if words == SHOW.as_slice() {
            let shop = self.shop;
            let found = shop_shown(self.alloc, &shop, &[], out)?;
            return see(found.is_some(), "show prints another shop");
        }
        if words == CHECK.as_slice() {
            return see(out == OK, "check doesn't print OK");
        }
        see(out == COPIED, "copy doesn't print COPIED")
    }

    /// A copy that was reported has its name, and no other.
    pub(crate) fn see_named(&mut self, ended: &Ended) -> Result<(), Stop> {
        let has_name = self.machine.has_file(COPY) && !self.machine.has_file(COPY_MAKING);
        see(
            has_name || ended.out.as_slice() != COPIED,
            "copy prints COPIED, and the copy hasn't its name alone",
        )
    }

    /// Once in two times power goes as soon as a copy was reported.
    fn lose_copied(&mut self, ended: &Ended) -> Result<(), Stop> {
        if ended.out.as_slice() != COPIED || self.random.once_in(2) {
            return Ok(());
        }
        self.lose_power()?;
        self.see_named(ended)
    }

    /// A copy that is there is whole.
    pub(crate) fn see_copy(&mut self) -> Result<(), Stop> {
        if self.machine.has_file(COPY) {
            self.see_shop(&SHOW_COPY, "a copy has another shop")?;
            self.machine.remove_file(COPY)?;
        }
        self.clear_making()
    }

    /// No copy is in the making.
    pub(crate) fn clear_making(&mut self) -> Result<(), Stop> {
        if self.machine.has_file(COPY_MAKING) {
            self.machine.remove_file(COPY_MAKING)?;
        }
        Ok(())
    }

    /// Runs a command that only reads.
    fn read_by(&mut self, words: Words, plan: Plan) -> Result<(), Stop> {
        self.counts.add(Event::Look, 1);
        let input = self.machine.copy_of(b"")?;
        let ended = self.run(words, input, 1, plan)?;
        self.see_named(&ended)?;
        if ended.is_stopped {
            self.fall(true)?;
            self.see_named(&ended)?;
            self.recover()?;
        } else if ended.status != 0 {
            see_failure(&ended)?;
        } else {
            self.see_read(words, &ended)?;
            self.lose_copied(&ended)?;
        }
        self.see_copy()?;
        self.see_shop(&SHOW, "a command that reads changed the shop")
    }

    /// Reads the disk.
    pub(crate) fn read(&mut self) -> Result<(), Stop> {
        let words: Words = match self.random.below(4) {
            0 => &SHOW,
            1 => &CHECK,
            _ => {
                self.clear_making()?;
                &COPYING
            }
        };
        let plan = draw_plan(&mut self.random, 120, 8);
        self.read_by(words, plan)
    }

    /// A command is run while another program has the image, which it lets go after some naps, or not at all.
    fn run_locked(&mut self, words: Words, lock: Lock, naps: u64) -> Result<Ended, Stop> {
        self.machine.lock_by_other(IMAGE, lock, naps);
        let input = self.machine.copy_of(b"")?;
        let ended = self.run(words, input, 1, Plan::NONE)?;
        self.machine.free_locks();
        Ok(ended)
    }

    /// Another program has the image.
    pub(crate) fn lock(&mut self) -> Result<(), Stop> {
        self.counts.add(Event::Lock, 1);
        let naps = self.random.below(5);
        let lock = if self.random.once_in(2) {
            Lock::Alone
        } else {
            Lock::Shared
        };
        let is_show = self.random.once_in(2);
        let words: Words = if is_show { &SHOW } else { &SERVE };
        let ended = self.run_locked(words, lock, naps)?;
        let is_let = naps > 0 || is_show && lock == Lock::Shared;
        if is_let {
            see(
                ended.status == 0,
                "a command doesn't wait for another program",
            )?;
        } else {
            let is_told = ended.status == 3 && ended.err.as_slice() == IN_USE;
            see(is_told, "the image of another program isn't IN USE")?;
            see(
                after_top(ended.out.as_slice()).is_empty(),
                "something was printed of an image IN USE",
            )?;
        }
        self.see_shop(&SHOW, "a lock changed the shop")
    }
}
