//! Commands that read while a service writes.
use crate::counts::Event;
use crate::judging::{OK, shop_shown};
use crate::runs::{Ended, Program, note, run};
use crate::services::{between, count_lines};
use crate::stops::{Stop, see};
use crate::stories::Story;
use crate::words::{CHECK, COPY, COPYING, SERVE, SHOW, SHOW_COPY, Words};
use simulated_machine::{Machine, Plan, Record};
use simulated_shop::{Line, Shop};

/// How many commands read beside a service.
const READERS: usize = 12;

/// A service that was run, beside which others read.
#[derive(Drop)]
struct Served {
    /// The files before.
    before: Machine,
    /// The shop before, and the lines that were all answered.
    shop: Shop,
    lines: Vec<Line>,
    /// What was printed.
    out: Vec<u8>,
}

impl<P: Program> Story<'_, P> {
    /// A shop that is shown has all that was answered when the reader began, and no more than was asked in the end.
    fn see_between(&self, served: &Served, answered: usize, out: &[u8]) -> Result<(), Stop> {
        let mut shop = served.shop;
        let lines = served.lines.as_slice();
        for line in between(lines, 0, answered) {
            if let Line::Asks(request) = line {
                shop.reply(request);
            }
        }
        let found = shop_shown(
            self.alloc,
            &shop,
            between(lines, answered, lines.len()),
            out,
        )?;
        see(
            found.is_some(),
            "beside a service another shop is read than one that was there meanwhile",
        )
    }

    /// What a command that reads printed beside a service is right.
    fn see_beside(
        &mut self,
        served: &Served,
        machine: &Machine,
        words: Words,
        answered: usize,
        ended: &Ended,
    ) -> Result<(), Stop> {
        see(
            ended.status == 0,
            "a command that reads beside a service is refused",
        )?;
        if words == SHOW.as_slice() {
            return self.see_between(served, answered, ended.out.as_slice());
        }
        if words == CHECK.as_slice() {
            return see(
                ended.out.as_slice() == OK,
                "beside a service check doesn't print OK",
            );
        }
        let input = machine.copy_of(b"")?;
        let shown = run(self.program, machine, &SHOW_COPY, input, 1, Plan::NONE);
        see(
            shown.status == 0 && machine.has_file(COPY),
            "a copy that was made beside a service is no shop",
        )?;
        self.see_between(served, answered, shown.out.as_slice())
    }

    /// A command reads while the service does what is recorded from a drawn moment on.
    fn read_beside(&mut self, served: &Served, record: Record) -> Result<Record, Stop> {
        self.counts.add(Event::Look, 1);
        let alone = record.count_alone();
        let more = record.count().saturating_sub(alone).saturating_add(1);
        let begun = alone.saturating_add(self.random.index(more));
        let upto = record.printed(begun).min(served.out.len());
        let answered = count_lines(&served.out.as_slice()[..upto]);
        let words: Words = match self.random.below(4) {
            0 => &COPYING,
            1 => &CHECK,
            _ => &SHOW,
        };
        let machine = served.before.copy()?;
        let most = self.random.below(4).saturating_add(2);
        machine.run_beside(record, begun, most, self.random.draw())?;
        let input = machine.copy_of(b"")?;
        let ended = run(self.program, &machine, words, input, 1, Plan::NONE);
        let record = machine.end_beside();
        note(&mut self.notes, words, &Plan::NONE, &ended)?;
        self.see_beside(served, &machine, words, answered, &ended)?;
        Ok(record)
    }

    /// Lines are served, and meanwhile others read.
    pub(crate) fn serve_readers(&mut self) -> Result<(), Stop> {
        self.counts.add(Event::Serve, 1);
        let lines = self.draw_lines()?;
        let text = self.text_of(lines.as_slice())?;
        let most = self.random.below(8).saturating_add(1);
        let before = self.machine.copy()?;
        let shop = self.shop;
        self.machine.watch();
        let ended = self.run(&SERVE, text, most, Plan::NONE)?;
        let mut record = self.machine.recorded();
        self.judge(lines.as_slice(), lines.len(), &ended, true)?;
        let served = Served {
            before,
            shop,
            lines,
            out: ended.out,
        };
        for _ in 0..READERS {
            record = self.read_beside(&served, record)?;
        }
        Ok(())
    }
}
