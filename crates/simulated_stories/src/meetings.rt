//! Faults that meet: what one command leaves that is killed does harm only if the next one is stopped, too.
use crate::changes::see_refusal;
use crate::counts::Event;
use crate::judging::see_replies;
use crate::runs::{Ended, Program, run, stop_at};
use crate::services::between;
use crate::stops::{Stop, see};
use crate::stories::Story;
use crate::words::{COPYING, DELETE_A, PLAY, PUT_A, SCRIPT, SERVE, SHOW, TITLE, TITLE_BACK, Words};
use simulated_machine::{Counted, Plan};

/// How often logs are stopped while they are made.
const MAKINGS: usize = 6;

/// How often power goes while a change ends, and in how many of its last steps that is.
const ENDINGS: usize = 3;

const ENDING: u64 = 5;

/// How often power goes while a copy gets its name, and in how many of its last steps that is.
const NAMINGS: usize = 4;

const NAMING: u64 = 3;

/// How often the tag is taken away.
const UNTAGGINGS: usize = 2;

/// How many steps a service has after it has synced that the tag was taken away: it removes the log, and syncs the folder.
const UNTAGGED: u64 = 2;

/// How many it has after it has synced the mark of its log: it also syncs the image three times.
const MARKED: u64 = 5;

/// The step of a `play` that syncs the image.
const PLAYED: u64 = 2;

/// The step of a change that syncs the folder when its log has got its name.
const NAMED: u64 = 8;

impl<P: Program> Story<'_, P> {
    /// A run ends at this step, or at one of the next; so many may be drawn. It may be done.
    fn stop_near(&mut self, step: u64, count: u64) -> Plan {
        let mut plan = stop_at(step.saturating_add(self.random.below(count)));
        plan.part = self.random.draw();
        plan
    }

    /// Runs a command without lines.
    fn run_alone(&mut self, words: Words, plan: Plan) -> Result<Ended, Stop> {
        let input = self.machine.copy_of(b"")?;
        self.run(words, input, 1, plan)
    }

    /// Runs a command that is killed.
    fn kill_in(&mut self, words: Words, plan: Plan) -> Result<Ended, Stop> {
        self.counts.add(Event::Kill, 1);
        self.run_alone(words, plan)
    }

    /// Runs a command without lines. If it is stopped, power goes.
    fn lose_in(&mut self, words: Words, plan: Plan) -> Result<(), Stop> {
        let ended = self.run_alone(words, plan)?;
        if ended.is_stopped {
            self.lose_power()?;
        }
        Ok(())
    }

    /// A `play` is killed before the image is synced. Power goes in the next command that writes, when its log has got its name: the
    /// image has to be on the disk by then.
    fn play_and_log(&mut self, words: Words, plan: Plan) -> Result<(), Stop> {
        self.look(&SERVE)?;
        let lines = self.draw_lines()?;
        let text = self.text_of(lines.as_slice())?;
        self.machine.put_file(SCRIPT, text.as_slice())?;
        let played = self.kill_in(&PLAY, stop_at(PLAYED))?;
        let mut shop = self.shop;
        let answered = see_replies(
            self.alloc,
            &mut shop,
            lines.as_slice(),
            played.out.as_slice(),
        )?;
        let ended = self.run_alone(words, plan)?;
        if ended.is_stopped && self.has_log() {
            self.lose_power()?;
        }
        self.look(&SERVE)?;
        self.find(&shop, between(lines.as_slice(), answered, lines.len()))
    }

    /// A change that isn't refused, and leaves the shop.
    fn draw_change(&mut self) -> Result<Words, Stop> {
        let made = self.made(&PUT_A)?;
        let is_refused = made.before.as_slice() == made.after.as_slice();
        let words: Words = if is_refused { &DELETE_A } else { &PUT_A };
        Ok(words)
    }

    /// A change is killed when its log has got its name. Power goes while the next command lands that log: the name has to be on the
    /// disk by then.
    fn change_and_land(&mut self) -> Result<(), Stop> {
        self.look(&SERVE)?;
        self.machine.put_file(SCRIPT, b"some bytes of a file\r")?;
        let words = self.draw_change()?;
        let made = self.made(words)?;
        see_refusal(&made.ended)?;
        self.kill_in(words, stop_at(NAMED))?;
        let step = self.random.below(2).saturating_add(3);
        self.lose_in(&SERVE, stop_at(step))?;
        self.look(&SERVE)?;
        self.see_half(&made, false)?;
        self.see_shop(&SHOW, "a change of the disk changed the shop")
    }

    /// Power goes in this step of a change, or in one of its last ones, or when it is done.
    fn change_and_lose(&mut self, named: Option<u64>) -> Result<(), Stop> {
        self.look(&SERVE)?;
        self.machine.put_file(SCRIPT, b"some bytes of a file\r")?;
        let words = self.draw_change()?;
        let made = self.made(words)?;
        see_refusal(&made.ended)?;
        let most = made.steps.saturating_add(1);
        let last = most.saturating_sub(self.random.below(ENDING));
        let ended = self.run_alone(words, stop_at(named.unwrap_or(last)))?;
        self.lose_power()?;
        self.look(&SERVE)?;
        self.see_half(&made, ended.out.as_slice().ends_with(b"\n"))?;
        self.see_shop(&SHOW, "a change of the disk changed the shop")
    }

    /// A service is killed when it has removed its log. The next command writes the image itself, and then power goes: the removal has
    /// to be on the disk by then.
    fn serve_and_play(&mut self) -> Result<(), Stop> {
        self.look(&SERVE)?;
        let lines = self.draw_lines()?;
        let text = self.text_of(lines.as_slice())?;
        // a hand syncs all, so it comes before the kill
        self.machine.put_file(SCRIPT, text.as_slice())?;
        let served = self.made(&SERVE)?;
        self.kill_in(&SERVE, stop_at(served.steps))?;
        let ended = self.run_alone(&PLAY, Plan::NONE)?;
        self.judge(lines.as_slice(), lines.len(), &ended, false)?;
        self.lose_power()?;
        self.see_shop(&SHOW, "a log that was removed is back")
    }

    /// Power goes while a log is made, which leaves one in the making, and then while the next one gets its name.
    fn make_again(&mut self) -> Result<(), Stop> {
        for _ in 0..MAKINGS {
            let step = self.random.below(2).saturating_add(4);
            self.lose_in(&SERVE, stop_at(step))?;
            let plan = self.stop_near(8, 2);
            self.lose_in(&SERVE, plan)?;
        }
        let ended = self.look(&SERVE)?;
        see(
            ended.status == 0,
            "after losses of power while logs were made no service begins",
        )?;
        self.see_shop(&SHOW, "a log that was made anew gives another shop")
    }

    /// Power goes while a service ends, which has so many steps left. Without its log the image has to be the shop then, or to say
    /// that its log is away.
    fn serve_and_lose(&mut self, left: u64) -> Result<(), Stop> {
        self.look(&SERVE)?;
        let lines = self.draw_lines()?;
        let text = self.text_of(lines.as_slice())?;
        let twin = self.machine.copy()?;
        let input = twin.copy_of(text.as_slice())?;
        run(self.program, &twin, &SERVE, input, 1, Plan::NONE);
        let step = twin.calls(Counted::Steps).saturating_sub(left);
        let ended = self.run(&SERVE, text, 1, stop_at(step))?;
        let mut shop = self.shop;
        see_replies(
            self.alloc,
            &mut shop,
            lines.as_slice(),
            ended.out.as_slice(),
        )?;
        self.lose_power()?;
        if self.has_log() {
            self.see_alone(&shop, &[])?;
        }
        self.look(&SERVE)?;
        self.find(&shop, &[])
    }

    /// Power goes in one of the last steps of a copy, or when it is done.
    fn copy_and_lose(&mut self) -> Result<(), Stop> {
        self.counts.add(Event::Look, 1);
        self.clear_making()?;
        let twin = self.machine.copy()?;
        let input = twin.copy_of(b"")?;
        run(self.program, &twin, &COPYING, input, 1, Plan::NONE);
        let most = twin.calls(Counted::Steps).saturating_add(1);
        let last = most.saturating_sub(self.random.below(NAMING));
        let ended = self.run_alone(&COPYING, stop_at(last))?;
        self.lose_power()?;
        self.see_named(&ended)?;
        self.see_copy()
    }

    /// Faults meet.
    pub fn meet_faults(&mut self) -> Result<(), Stop> {
        let plan = self.stop_near(7, 4);
        self.play_and_log(&SERVE, plan)?;
        let words: Words = if self.random.once_in(2) {
            &TITLE
        } else {
            &TITLE_BACK
        };
        let plan = self.stop_near(6, 3);
        self.play_and_log(words, plan)?;
        self.change_and_land()?;
        for _ in 0..ENDINGS {
            self.change_and_lose(None)?;
        }
        self.change_and_lose(Some(NAMED))?;
        self.serve_and_play()?;
        for _ in 0..UNTAGGINGS {
            self.serve_and_lose(UNTAGGED)?;
        }
        self.serve_and_lose(MARKED)?;
        self.format_long()?;
        self.make_again()?;
        for _ in 0..NAMINGS {
            self.copy_and_lose()?;
        }
        Ok(())
    }
}
