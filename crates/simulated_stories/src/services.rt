//! Lines that are sent.
use crate::counts::Event;
use crate::judging::{see_failure, see_replies};
use crate::runs::{Ended, Program, draw_plan, draw_strike};
use crate::stops::{Stop, see};
use crate::stories::Story;
use crate::words::{PLAY, PLAY_SYNC, SCRIPT, SERVE, Words};
use simulated_machine::{Counted, Plan, Strike};
use simulated_shop::{Line, Request, Shop, draw_line, write_line};

/// How many lines fill a log.
const FULL: u32 = 1000;

/// How many lines of a text end.
pub(crate) fn count_lines(text: &[u8]) -> usize {
    let mut count = 0usize;
    for byte in text {
        if *byte == b'\n' {
            count = count.saturating_add(1);
        }
    }
    count
}

/// How many of these bytes were read, as lines.
fn lines_read(text: &[u8], taken: usize) -> usize {
    count_lines(&text[..taken.min(text.len())])
}

/// Puts a line after others.
fn push(lines: &mut Vec<Line>, line: Line) -> Result<(), Stop> {
    match lines.push(line) {
        Ok(()) => Ok(()),
        Err(_) => Err(Stop::NoMemory),
    }
}

/// The lines from there on up to there.
pub(crate) fn between(lines: &[Line], from: usize, upto: usize) -> &[Line] {
    let upto = upto.min(lines.len());
    &lines[from.min(upto)..upto]
}

impl<P: Program> Story<'_, P> {
    /// Lines of the tills.
    pub(crate) fn draw_lines(&mut self) -> Result<Vec<Line>, Stop> {
        let mut lines = Vec::new(self.alloc);
        let mut shop = self.shop;
        let count = self.random.below(30);
        for _ in 0..count {
            let line = draw_line(&mut self.random, &shop);
            if let Line::Asks(request) = &line {
                shop.reply(request);
            }
            push(&mut lines, line)?;
        }
        self.counts.add(Event::Line, count);
        Ok(lines)
    }

    /// Lines as a text.
    pub(crate) fn text_of(&self, lines: &[Line]) -> Result<Vec<u8>, Stop> {
        let mut text = Vec::new(self.alloc);
        for line in lines {
            if write_line(&mut text, line).is_err() {
                return Err(Stop::NoMemory);
            }
        }
        Ok(text)
    }

    /// Judges a run to which so many of these lines were handed. If it wasn't done, it is stopped, recovered, and the shop is found.
    pub(crate) fn judge(
        &mut self,
        lines: &[Line],
        handed: usize,
        ended: &Ended,
        is_logged: bool,
    ) -> Result<(), Stop> {
        let mut shop = self.shop;
        let answered = see_replies(self.alloc, &mut shop, lines, ended.out.as_slice())?;
        if ended.status == 0 && !ended.is_stopped {
            see(
                answered == lines.len(),
                "a run is done, and a line has no reply",
            )?;
            self.shop = shop;
            return Ok(());
        }
        if ended.is_stopped {
            self.fall(is_logged)?;
        } else {
            see_failure(ended)?;
        }
        self.end(&shop, between(lines, answered, handed), is_logged)
    }

    /// What comes after a run that wasn't done. A `play` promises nothing of a loss of power that comes before the next command has
    /// synced the image.
    fn end(&mut self, shop: &Shop, lines: &[Line], is_logged: bool) -> Result<(), Stop> {
        if !is_logged {
            self.settle()?;
            return self.find(shop, lines);
        }
        self.recover()?;
        let least = self.peek(shop, lines)?;
        self.find(&least.shop, between(lines, least.count, lines.len()))
    }

    /// Runs a command over a script of these lines.
    fn play_lines(
        &mut self,
        words: Words,
        lines: &[Line],
        plan: Plan,
        is_logged: bool,
    ) -> Result<(), Stop> {
        let text = self.text_of(lines)?;
        self.machine.put_file(SCRIPT, text.as_slice())?;
        let input = self.machine.copy_of(b"")?;
        let ended = self.run(words, input, 1, plan)?;
        self.judge(lines, lines.len(), &ended, is_logged)
    }

    /// Plays a script over a log.
    pub(crate) fn play_sync(&mut self) -> Result<(), Stop> {
        self.counts.add(Event::PlaySync, 1);
        let lines = self.draw_lines()?;
        let plan = draw_plan(&mut self.random, 2000, 24);
        self.play_lines(&PLAY_SYNC, lines.as_slice(), plan, true)
    }

    /// Plays a script on the image itself.
    pub(crate) fn play(&mut self) -> Result<(), Stop> {
        self.counts.add(Event::Play, 1);
        let lines = self.draw_lines()?;
        let plan = draw_plan(&mut self.random, 200, 5);
        self.play_lines(&PLAY, lines.as_slice(), plan, false)
    }

    /// Serves these lines, of which a read gives so many at most.
    fn serve_lines(&mut self, lines: &[Line], most: u64, plan: Plan) -> Result<(), Stop> {
        let text = self.text_of(lines)?;
        let input = self.machine.copy_of(text.as_slice())?;
        let ended = self.run(&SERVE, input, most, plan)?;
        let handed = lines_read(text.as_slice(), ended.taken);
        self.judge(lines, handed, &ended, true)
    }

    /// Serves some lines.
    pub(crate) fn serve(&mut self) -> Result<(), Stop> {
        self.counts.add(Event::Serve, 1);
        let lines = self.draw_lines()?;
        let most = self.random.below(8).saturating_add(1);
        let plan = draw_plan(&mut self.random, 2000, 32);
        self.serve_lines(lines.as_slice(), most, plan)
    }

    /// A line each of which makes a commit of its own.
    fn long_lines(&mut self) -> Result<Vec<Line>, Stop> {
        let mut lines = Vec::new(self.alloc);
        let last = self.shop.last_of(1).number;
        for count in 1..=FULL {
            let request = Request {
                till: 1,
                number: last.saturating_add(count),
                kind: b'S',
                item: 1,
                quantity: count,
                to: 0,
            };
            push(&mut lines, Line::Asks(request))?;
        }
        self.counts.add(Event::Line, u64::from(FULL));
        Ok(lines)
    }

    /// Serves so many lines that the log fills up. The program is stopped around the moment when the log is made anew.
    pub(crate) fn serve_long(&mut self) -> Result<(), Stop> {
        let lines = self.long_lines()?;
        let mut plan = draw_strike(&mut self.random, 1, 24, Strike::Stops);
        plan.counted = Counted::Steps;
        plan.at = self.random.below(24).saturating_add(936);
        self.serve_lines(lines.as_slice(), 1, plan)
    }
}
