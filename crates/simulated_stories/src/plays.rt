//! The stories that the words of the command line ask for.
use crate::asked::{Asked, read_words};
use crate::counts::{Counts, EVENTS};
use crate::runs::Program;
use crate::stops::Stop;
use crate::stories::Story;
use simulated_machine::{Acts, names_of};
use std::io;
use std::rt::Env;
use std::time::{Clock, Instant};

/// How many steps a story has before the last one, in which faults meet.
const STEPS: u64 = 24;

/// How many it has.
const ALL: u64 = 25;

/// Prints what a story has run since it was last asked.
fn print_notes<R: Print, P: Program>(rt: &R, story: &mut Story<'_, P>) -> io::Result<()> {
    rt.write_all(story.notes().as_slice())
}

/// Plays a step of a story. One in four stories fills a log.
fn play_step<P: Program>(story: &mut Story<'_, P>, seed: u64, step: u64) -> Result<(), Stop> {
    if step > STEPS {
        return story.meet_faults();
    }
    if step == STEPS && seed % 4 == 0 {
        return story.fill_log();
    }
    story.step()
}

/// Plays the steps of a story. The number of the step at which it ended, and why, if it did.
fn play_steps<R: Print, P: Program>(
    rt: &R,
    story: &mut Story<'_, P>,
    seed: u64,
    shows: bool,
) -> io::Result<Option<(u64, Stop)>> {
    if let Err(stop) = story.begin() {
        return Ok(Some((0, stop)));
    }
    for step in 1..=ALL {
        let played = play_step(story, seed, step);
        if shows {
            println!(rt; "step {step}:")?;
            print_notes(rt, story)?;
        }
        if let Err(stop) = played {
            return Ok(Some((step, stop)));
        }
    }
    Ok(None)
}

/// Prints why a story ended, and how to play it again.
fn print_end<R: Print>(rt: &R, seed: u64, step: u64, stop: Stop) -> io::Result<()> {
    match stop {
        Stop::Wrong(what) => println!(rt; "seed {seed}, step {step}: {what}")?,
        Stop::NoMemory => println!(rt;
            "seed {seed}, step {step}: the machine has no memory, or no such file"
        )?,
    }
    println!(rt; "again, step by step: simulator --seed {seed} --steps")
}

/// What was played.
#[derive(Clone, Copy)]
struct Played {
    stories: u64,
    counts: Counts,
    acts: Acts,
}

/// Plays the story of a seed. Whether the program did nothing wrong.
fn play_seed<R: Print + AllocGlobal, P: Program>(
    rt: &R,
    program: &P,
    seed: u64,
    asked: &Asked,
    all: &mut Played,
) -> io::Result<bool> {
    let mut story = Story::new(rt.alloc(), program, seed);
    if let Some(number) = asked.without {
        story.leave_out(number);
    }
    if let Some(number) = asked.late {
        story.delay(number);
    }
    let ended = play_steps(rt, &mut story, seed, asked.shows)?;
    all.stories = all.stories.saturating_add(1);
    all.counts.add_all(&story.counts());
    all.acts.add_all(&story.acts());
    match ended {
        Some((step, stop)) => {
            print_end(rt, seed, step, stop)?;
            Ok(false)
        }
        None => Ok(true),
    }
}

/// Whether so many hours have passed.
fn is_over<R: Clock>(rt: &R, begun: Option<Instant>, hours: u64) -> bool {
    match begun {
        Some(begun) => match begun.elapsed(rt) {
            Ok(passed) => passed.as_secs() >= hours.saturating_mul(3600),
            Err(_) => true,
        },
        None => false,
    }
}

/// Plays the stories that are asked for. Whether the program did nothing wrong.
fn play_all<R: Print + Clock + AllocGlobal, P: Program>(
    rt: &R,
    program: &P,
    asked: &Asked,
    all: &mut Played,
) -> io::Result<bool> {
    let begun = if asked.hours > 0 {
        Some(Instant::now(rt)?)
    } else {
        None
    };
    let seeds = if asked.hours > 0 {
        u64::MAX
    } else {
        asked.seeds
    };
    for number in 0..seeds {
        if is_over(rt, begun, asked.hours) {
            return Ok(true);
        }
        let seed = asked.seed.wrapping_add(number);
        if !play_seed(rt, program, seed, asked, all)? {
            return Ok(false);
        }
    }
    Ok(true)
}

/// Prints how many events of each kind were played.
fn print_counts<R: Print>(rt: &R, counts: &Counts) -> io::Result<()> {
    for (event, name) in &EVENTS {
        println!(rt; "{name}: {}", counts.of(*event))?;
    }
    Ok(())
}

/// Prints the numbers of the calls that were made, each with that of its kind and of the one before it.
fn print_acts<R: Print>(rt: &R, acts: &Acts) -> io::Result<()> {
    for number in 0..256 {
        if acts.has_seen(number) {
            let (act, before) = names_of(number);
            println!(rt; "{number}: {act}, after: {before}")?;
        }
    }
    Ok(())
}

/// Plays the stories of this program that the words of the command line ask for, and prints what was played. Returns the exit status: 0
/// if the program did nothing wrong, 1 if it did, 2 if there are no such words.
pub fn play_words<R, P>(rt: &R, program: &P) -> io::Result<u8>
where
    R: Print + Clock + Env + AllocGlobal,
    P: Program,
{
    let Some(asked) = read_words(rt) else {
        println!(rt;
            "simulator [--seed N] [--seeds N] [--hours H] [--steps] [--acts] [--without NUMBER | --late NUMBER]"
        )?;
        return Ok(2);
    };
    let mut all = Played {
        stories: 0,
        counts: Counts::NONE,
        acts: Acts::ALL,
    };
    let is_right = play_all(rt, program, &asked, &mut all)?;
    if is_right {
        println!(rt;
            "stories played: {}; the program did nothing wrong",
            all.stories
        )?;
    }
    if asked.counts {
        print_counts(rt, &all.counts)?;
    }
    if asked.lists {
        print_acts(rt, &all.acts)?;
    }
    Ok(if is_right { 0 } else { 1 })
}
