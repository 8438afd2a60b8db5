//! The command line that the program takes, for `clap`, and what its help says.
#![tactic(auto)]

mod changes;
mod entries;
mod grammar;
mod help_texts;
mod looks;
mod rescues;
mod shops;
mod subcommands;
mod values;

pub use grammar::ledger_command;
