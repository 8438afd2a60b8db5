//! A retry-safe stock ledger: the program.
#![tactic(auto)]

use ledger_cli::{Audience, hold_streams, program};
use std::io::IsTerminal;
use std::process::ExitCode;

fn main(rt: HostRuntime) -> ExitCode {
    let mut err = rt.stderr();
    // before any file is opened, and until the program ends
    let _streams = match hold_streams(&rt, &mut err) {
        Ok(streams) => streams,
        Err(status) => return ExitCode::from(status),
    };
    let told = Audience::of(err.is_terminal(), rt.stdout().is_terminal());
    ExitCode::from(program(&rt, told, &mut err))
}
