//! The command line that the program takes.
ghost use Rattle.std.specs.Prelude.{◌≡◌, IfOk, Ok, codes, false};
ghost use Rattle.clap.specs.Words.{app_of, new_app, rule_of};
ghost use Rattle.clap.specs.declared.builder.command.Command.TheViews.{out-Command};
ghost use Rattle.command_table.specs.Grammar as grammar;
ghost use Rattle.command_table.specs.Rows as rows;

use crate::changes::CHANGES;
use crate::entries::ENTRIES;
use crate::help_texts::MORE;
use crate::looks::LOOKS;
use crate::rescues::RESCUES;
use crate::shops::SHOPS;
use crate::subcommands::Subcommand;
use crate::values::{Count, EXPLAIN, Value};
use clap::{Arg, ArgAction, Command};
use std::alloc::{AllocError, Global};

/// What `--version` prints after the program's name: the version, and the day of its release.
const VERSION: &str = "0.2.14 (2026-12-01)";

/// A command with this name, and what help says of it: in a line, and below its words.
fn named<'a>(alloc: Global, name: &'a str, about: &'a str, more: &'a str) -> Command<'a>
    ensures app { app_of result ≡ new_app name.entry.now }
    ensures local { (out-Command result).has_globals ≡ false }
{
    Command::new(alloc, name).about(about).after_help(more)
}

/// What `clap` reads for a value or a flag.
fn arg_of<'a>(alloc: Global, value: &Value) -> Arg<'a>
    ensures rule { rule_of result ≡ rows.rule value.now }
    ensures local { result.global ≡ false }
{
    let arg = Arg::new(alloc, value.name).help(value.help);
    let arg = match value.word {
        Some(word) => arg.long(word),
        None => arg,
    };
    match value.count {
        Count::One => arg.required(true),
        Count::Optional => arg,
        Count::Several => arg.required(true).action(ArgAction::Append),
        Count::Flag => arg.action(ArgAction::SetTrue),
    }
}

/// A subcommand with its values and its own flags.
fn subcommand_of<'a>(alloc: Global, subcommand: &Subcommand) -> Result<Command<'a>, AllocError>
    ensures { IfOk result (grammar.IsSubcommand (rows.app subcommand.now)) }
{
    let mut command = named(alloc, subcommand.name, subcommand.about, subcommand.more);
    for value in subcommand.values {
        command = command.arg(arg_of(alloc, value))?;
    }
    Ok(command)
}

/// A subcommand that takes --explain too.
fn explainable_of<'a>(alloc: Global, subcommand: &Subcommand) -> Result<Command<'a>, AllocError>
    ensures { IfOk result (grammar.IsSubcommand (grammar.explainable (rows.app subcommand.now))) }
{
    subcommand_of(alloc, subcommand)?.arg(arg_of(alloc, &EXPLAIN))
}

/// The program's name, and what help says of it.
fn described<'a>(alloc: Global) -> Command<'a>
    ensures { app_of result ≡ new_app (codes "ledger") }
{
    let about = "Keep a shop's stock on a 1541 disk (D64), and check, read and repair disks";
    named(alloc, "ledger", about, MORE)
}

/// The program without its subcommands.
fn bare<'a>(alloc: Global) -> Result<Command<'a>, AllocError>
    ensures { IfOk result (λ c. app_of c ≡ grammar.bare) }
{
    described(alloc)
        .version(VERSION)
        .subcommand_required(true)
        .arg(arg_of(alloc, &EXPLAIN))
}

/// The program with the subcommands of a group more, in their order.
fn with_group<'a>(
    alloc: Global,
    before: Command<'a>,
    group: &'static [Subcommand],
) -> Result<Command<'a>, AllocError>
    ensures { IfOk result (rows.HasRows (app_of before.entry) group.entry.now) }
{
    let mut program = before;
    for subcommand in group {
        program = program.subcommand(explainable_of(alloc, subcommand)?)?;
    }
    Ok(program)
}

/// The program with the subcommands that look at disks more.
fn with_looks<'a>(alloc: Global, before: Command<'a>) -> Result<Command<'a>, AllocError>
    ensures { IfOk result (λ c. app_of c ≡ grammar.with_looks (app_of before.entry)) }
{
    with_group(alloc, before, LOOKS)
}

/// And with those that rescue files and disks.
fn with_rescue<'a>(alloc: Global, before: Command<'a>) -> Result<Command<'a>, AllocError>
    ensures { IfOk result (λ c. app_of c ≡ grammar.with_rescue (app_of before.entry)) }
{
    with_group(alloc, before, RESCUES)
}

/// And with those that make disks and files.
fn with_changes<'a>(alloc: Global, before: Command<'a>) -> Result<Command<'a>, AllocError>
    ensures { IfOk result (λ c. app_of c ≡ grammar.with_changes (app_of before.entry)) }
{
    with_group(alloc, before, CHANGES)
}

/// And with those that change the entries of a directory.
fn with_entries<'a>(alloc: Global, before: Command<'a>) -> Result<Command<'a>, AllocError>
    ensures { IfOk result (λ c. app_of c ≡ grammar.with_entries (app_of before.entry)) }
{
    with_group(alloc, before, ENTRIES)
}

/// And with those that run a shop.
fn with_shop<'a>(alloc: Global, before: Command<'a>) -> Result<Command<'a>, AllocError>
    ensures { IfOk result (λ c. app_of c ≡ grammar.with_shop (app_of before.entry)) }
{
    with_group(alloc, before, SHOPS)
}

/// The program's command line.
pub fn ledger_command<'a>(alloc: Global) -> Result<Command<'a>, AllocError>
    ensures { IfOk result (λ c. app_of c ≡ grammar.ledger) }
{
    let program = with_looks(alloc, bare(alloc)?)?;
    let program = with_rescue(alloc, program)?;
    let program = with_changes(alloc, program)?;
    let program = with_entries(alloc, program)?;
    with_shop(alloc, program)
}
