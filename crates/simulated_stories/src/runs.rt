//! One run of the program on a machine.
use crate::counts::{Counts, Event};
use crate::words::Words;
use simulated_machine::{Counted, Host, Machine, Plan, Random, Strike};
use std::io::{self, Write};

/// The program that is tried.
pub trait Program {
    /// Runs it on a system. What it reports goes to `err`. Returns its exit status.
    fn run(&self, host: &Host<'_>, err: &mut Vec<u8>) -> u8;
}

/// How a run ended.
#[derive(Drop)]
pub(crate) struct Ended {
    pub(crate) status: u8,
    pub(crate) out: Vec<u8>,
    pub(crate) err: Vec<u8>,
    pub(crate) is_stopped: bool,
    pub(crate) is_struck: bool,
    /// How many bytes of the input were read.
    pub(crate) taken: usize,
}

/// Runs a command with this input, of which a read gives so many lines at most.
pub(crate) fn run<P: Program>(
    program: &P,
    machine: &Machine,
    words: Words,
    input: Vec<u8>,
    lines: u64,
    plan: Plan,
) -> Ended {
    machine.begin(words, input, lines, plan.part, plan);
    let host = Host::new(machine);
    let mut err = Vec::new(host.alloc());
    let status = program.run(&host, &mut err);
    machine.finish();
    Ended {
        status,
        out: machine.printed(),
        err,
        is_stopped: machine.is_stopped(),
        is_struck: machine.is_struck(),
        taken: machine.taken(),
    }
}

/// Counts what happened to a call.
pub(crate) fn count_strike(counts: &mut Counts, plan: &Plan, ended: &Ended) {
    if !ended.is_struck {
        return;
    }
    match plan.what {
        Strike::Fails => counts.add(Event::Failure, 1),
        Strike::IsShort => counts.add(Event::Short, 1),
        Strike::Passes | Strike::Stops => {}
    }
}

/// A number up to that one, of which small ones are as likely as great ones.
fn draw_call(random: &mut Random, most: u64) -> u64 {
    let bits = random.below(63);
    let limit = (u64::MAX >> bits).min(most);
    random.below(limit).saturating_add(1)
}

/// What happens in a run that makes so many calls and steps at most, if something does.
pub(crate) fn draw_strike(random: &mut Random, calls: u64, steps: u64, what: Strike) -> Plan {
    let part = random.draw();
    if random.once_in(3) {
        return Plan {
            counted: Counted::All,
            at: draw_call(random, calls),
            what,
            part,
        };
    }
    Plan {
        counted: Counted::Steps,
        at: random.below(steps).saturating_add(1),
        what,
        part,
    }
}

/// What happens in a run: often nothing, and often the program is stopped.
pub(crate) fn draw_plan(random: &mut Random, calls: u64, steps: u64) -> Plan {
    let what = match random.below(10) {
        0 | 1 => return Plan::NONE,
        2 => Strike::IsShort,
        3 => Strike::Fails,
        _ => Strike::Stops,
    };
    draw_strike(random, calls, steps, what)
}

/// A run ends at this step, which isn't done.
pub(crate) fn stop_at(step: u64) -> Plan {
    Plan {
        counted: Counted::Steps,
        at: step,
        what: Strike::Stops,
        part: 0,
    }
}

/// Notes a run for a person who follows a story.
pub(crate) fn note(
    notes: &mut Vec<u8>,
    words: Words,
    plan: &Plan,
    ended: &Ended,
) -> io::Result<()> {
    for word in words {
        write!(notes, "{word} ")?;
    }
    if ended.is_struck {
        let what = match plan.what {
            Strike::Passes => "passes",
            Strike::Fails => "fails",
            Strike::IsShort => "is cut short",
            Strike::Stops => "is the last",
        };
        let counted = match plan.counted {
            Counted::All => "call",
            Counted::Steps => "step",
        };
        write!(notes, "({counted} {} {what}) ", plan.at)?;
    }
    write!(
        notes,
        "-> {}, {} bytes printed; ",
        ended.status,
        ended.out.len()
    )?;
    notes.extend_from_slice(ended.err.as_slice())?;
    if ended.err.is_empty() {
        writeln!(notes)?;
    }
    Ok(())
}
