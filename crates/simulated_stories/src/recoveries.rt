//! What happens after a program was stopped.
use crate::counts::Event;
use crate::judging::{Found, OK, shop_shown};
use crate::runs::{Ended, Program, draw_strike, stop_at};
use crate::stops::{Stop, see};
use crate::stories::Story;
use crate::words::{AWAY, CHECK, IMAGE, LOG, PLAY_SYNC, SCRIPT, SERVE, SHOW, Words};
use simulated_machine::Strike;
use simulated_shop::{Line, Shop};

/// What is reported of an image without its log.
const LOG_AWAY: &[u8] = b"LOG AWAY\n";

/// The step of a command that reads in which it syncs the log.
const READ: u64 = 1;

/// How many times a recovery is stopped at most.
const DEPTH: usize = 3;

impl<P: Program> Story<'_, P> {
    /// The program was stopped: it was killed, or power went. Whether power went.
    pub(crate) fn fall(&mut self, may_lose_power: bool) -> Result<bool, Stop> {
        if !may_lose_power || self.random.once_in(4) {
            self.counts.add(Event::Kill, 1);
            return Ok(false);
        }
        self.lose_power()?;
        Ok(true)
    }

    /// Power goes.
    pub(crate) fn lose_power(&mut self) -> Result<(), Stop> {
        self.counts.add(Event::PowerLoss, 1);
        match self.machine.lose_power(&mut self.random) {
            Ok(()) => Ok(()),
            Err(_) => Err(Stop::NoMemory),
        }
    }

    /// Now and then power goes between two commands. What was done and what was shown stays.
    pub(crate) fn rest(&mut self) -> Result<(), Stop> {
        if !self.random.once_in(3) {
            return Ok(());
        }
        self.lose_power()?;
        self.see_shop(
            &SHOW,
            "after a loss of power between two commands the shop is another one",
        )
    }

    /// A `play` was killed: the image may not be on the disk until the next command has begun. That one is stopped, too. Power may go
    /// only if it has made its log.
    pub(crate) fn settle(&mut self) -> Result<(), Stop> {
        let plan = draw_strike(&mut self.random, 2000, 24, Strike::Stops);
        let input = self.machine.copy_of(b"")?;
        let ended = self.run(&SERVE, input, 1, plan)?;
        if ended.is_stopped && self.has_log() {
            self.lose_power()?;
        }
        self.look(&SERVE)?;
        Ok(())
    }

    /// What comes after a run of a command that works over a log.
    pub(crate) fn fall_if_stopped(&mut self, ended: &Ended) -> Result<(), Stop> {
        if ended.is_stopped {
            self.fall(true)?;
        }
        Ok(())
    }

    /// A command that recovers and sends no line is run, and stopped.
    fn recover_once(&mut self, words: Words) -> Result<(), Stop> {
        let plan = draw_strike(&mut self.random, 2000, 24, Strike::Stops);
        let input = self.machine.copy_of(b"")?;
        let ended = self.run(words, input, 1, plan)?;
        if ended.is_stopped {
            self.counts.add(Event::Again, 1);
        }
        self.fall_if_stopped(&ended)
    }

    /// Recoveries are begun, and stopped again.
    pub(crate) fn recover(&mut self) -> Result<(), Stop> {
        for _ in 0..DEPTH {
            match self.random.below(5) {
                0 => self.recover_once(&SERVE)?,
                1 => self.recover_once(&SHOW)?,
                2 => {
                    self.machine.put_file(SCRIPT, b"")?;
                    self.recover_once(&PLAY_SYNC)?;
                }
                _ => return Ok(()),
            }
        }
        Ok(())
    }

    /// Whether a log has its name.
    pub(crate) fn has_log(&self) -> bool {
        self.machine.has_file(LOG)
    }

    /// Without its log the image has a shop with all that was answered, or it says that its log is away.
    pub(crate) fn see_alone(&mut self, shop: &Shop, lines: &[Line]) -> Result<(), Stop> {
        self.counts.add(Event::Hand, 1);
        self.machine.move_file(LOG, AWAY)?;
        let ended = self.look(&SHOW)?;
        let is_away = ended.status == 1 && ended.err.as_slice() == LOG_AWAY;
        if !is_away {
            let found = self.shown(&SHOW, shop, lines)?;
            see(
                found.is_some(),
                "without its log the image has an older shop, and doesn't say so",
            )?;
        }
        self.machine.move_file(AWAY, LOG)?;
        Ok(())
    }

    /// A command that reads the log is stopped when it has printed its text, if it prints that before it has synced what it read.
    /// Then power goes: what was printed has to stay. How many of these lines count at least.
    pub(crate) fn peek(&mut self, shop: &Shop, lines: &[Line]) -> Result<Found, Stop> {
        let input = self.machine.copy_of(b"")?;
        let ended = self.run(&SHOW, input, 1, stop_at(READ))?;
        let out = ended.out.as_slice();
        match shop_shown(self.alloc, shop, lines, out)? {
            Some(found) => {
                self.lose_power()?;
                Ok(found)
            }
            None => Ok(Found {
                shop: *shop,
                count: 0,
            }),
        }
    }

    /// The shop after some first ones of these lines is the one that is found, and the disk is sound.
    pub(crate) fn find(&mut self, shop: &Shop, lines: &[Line]) -> Result<(), Stop> {
        if self.has_log() && !self.is_untagged && self.random.once_in(3) {
            self.see_alone(shop, lines)?;
        }
        let Some(found) = self.shown(&SHOW, shop, lines)? else {
            return Err(Stop::Wrong("after a recovery the shop isn't one that may be there"));
        };
        self.shop = found.shop;
        let checked = self.look(&CHECK)?;
        see(
            checked.status == 0 && checked.out.as_slice() == OK,
            "after a recovery check doesn't print OK",
        )
    }

    /// The image's file, if no log is beside it.
    pub(crate) fn image_alone(&self) -> Option<Vec<u8>> {
        if self.has_log() {
            return None;
        }
        self.machine.bytes_of(IMAGE).ok()
    }
}
