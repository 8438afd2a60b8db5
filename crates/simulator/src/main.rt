//! Plays the whole program over a machine in memory, by seeds: `simulator [--seed N] [--seeds N] [--hours H] [--steps]`. To try the
//! simulator itself, `--acts` prints the numbers of the calls that were made, `--without NUMBER` leaves out one of them, and
//! `--late NUMBER` makes one of them later.
#![tactic(auto)]

use ledger_cli::{Audience, program};
use simulated_machine::Host;
use simulated_stories::{Program, play_words};
use std::io;
use std::process::ExitCode;

/// The whole program `ledger`.
struct Ledger;

impl Program for Ledger {
    fn run(&self, host: &Host<'_>, err: &mut Vec<u8>) -> u8 {
        program(host, Audience::Program, err)
    }
}

fn main(rt: HostRuntime) -> io::Result<ExitCode> {
    Ok(ExitCode::from(play_words(&rt, &Ledger)?))
}
