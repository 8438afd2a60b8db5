//! Reading the words of the command line.
ghost use Rattle.std.specs.Prelude.{◌≡◌, IfErr, IfOk, MatchResult, [], map};
ghost use Rattle.clap.specs.Words.{HasKind, fault_of, found_of, matches_of, rows_of, subcommand_of, subcommand_rows_of};
ghost use Rattle.command_table.specs.Grammar.{ledger};
ghost use Rattle.ledger_jobs.specs.Jobs.{IsFit};
ghost use Rattle.ledger_cli.specs.Jobs.{IsHeard, IsJob, IsNoJob, IsParse, is_explained as explained};

use crate::change_jobs::{
    copy_file_job, delete_job, lock_job, make_job, put_job, rename_job, repair_job, sort_job,
    store_job, title_job, undelete_job,
};
use crate::faults::JobFault;
use crate::image_jobs::{
    copy_job, dry_job, extract_job, format_job, new_job, play_job, serve_job, trim_job,
};
use crate::look_jobs::{
    basic_job, bytes_job, check_job, free_job, list_job, map_job, picture_job, plan_job,
    records_job, sector_job, show_job,
};
use crate::values::{is_given, parsed_subcommand};
use clap::{ArgMatches, Error};
use command_table::ledger_command;
use disk_changes::Lock;
use ledger_jobs::Job;
use std::alloc::{AllocError, Global};

/// The job of the subcommand that was met.
fn job_of<'a>(alloc: Global, matches: &ArgMatches<'a>) -> Result<Job<'a>, JobFault>
    ensures { let found = subcommand_rows_of matches.now in
        MatchResult result (λ job. IsJob found job × IsFit job) (IsNoJob [] found) }
{
    let Some((name, found)) = parsed_subcommand(matches) else {
        // A parse without a subcommand is refused.
        return Err(JobFault::Words(Error::from(AllocError)));
    };
    match name {
        "format" => format_job(found),
        "list" => list_job(alloc, found),
        "check" => check_job(alloc, found),
        "plan" => plan_job(alloc, found),
        "show" => show_job(alloc, found),
        "play" => play_job(found),
        "serve" => serve_job(found),
        "copy" => copy_job(found),
        "extract" => extract_job(found),
        "repair" => repair_job(found),
        "records" => records_job(found),
        "bytes" => bytes_job(found),
        "basic" => basic_job(found),
        "make" => make_job(found),
        "store" => store_job(found),
        "put" => put_job(found),
        "copy-file" => copy_file_job(found),
        "rename" => rename_job(found),
        "title" => title_job(found),
        "lock" => lock_job(found, Lock::Set),
        "unlock" => lock_job(found, Lock::Cleared),
        "delete" => delete_job(found),
        "undelete" => undelete_job(found),
        "sort" => sort_job(found),
        "new" => new_job(found),
        "map" => map_job(alloc, found),
        "picture" => picture_job(alloc, found),
        "dry" => dry_job(found),
        "free" => free_job(alloc, found),
        "sector" => sector_job(found),
        "trim" => trim_job(found),
        // No other subcommand can be met.
        _ => Err(JobFault::Words(Error::from(AllocError))),
    }
}

/// Whether --explain is among the words.
fn is_explained<'a>(matches: &ArgMatches<'a>) -> bool
    ensures { result ≡ explained (rows_of (found_of matches.now)) (subcommand_rows_of matches.now) }
{
    if is_given(matches, "explain") {
        return true;
    }
    match parsed_subcommand(matches) {
        Some((_, found)) => is_given(found, "explain"),
        None => false,
    }
}

/// What the command line finds in the words.
fn parsed<'a>(alloc: Global, words: &'a [&'a str]) -> Result<ArgMatches<'a>, Error>
    ensures { let texts = map (λ word. word.now) words.entry.now in
        MatchResult result (IsParse (fault_of ledger texts) (matches_of ledger texts) (subcommand_of ledger texts))
        (HasKind (fault_of ledger texts)) }
{
    ledger_command(alloc)?.try_get_matches_from(words)
}

/// What the words of a command line ask for.
#[derive(Drop)]
pub struct CommandLine<'a> {
    /// The job, or why there is none.
    pub job: Result<Job<'a>, JobFault>,
    /// Whether more is to be printed if the job isn't done: --explain is among the words. False if they are refused.
    pub is_explained: bool,
}

/// What the words ask for. The first word is the program's name.
pub fn command_line<'a>(alloc: Global, words: &'a [&'a str]) -> CommandLine<'a>
    ensures ok { let texts = map (λ word. word.now) words.entry.now in
        IfOk result.job (λ j. (fault_of ledger texts ≡ []) × IsJob (subcommand_of ledger texts) j) }
    ensures fit { IfOk result.job IsFit }
    ensures err { let texts = map (λ word. word.now) words.entry.now in
        IfErr result.job (IsNoJob (fault_of ledger texts) (subcommand_of ledger texts)) }
    // Words that the command line takes are explained exactly if they ask for it, and others aren't.
    ensures explained { let texts = map (λ word. word.now) words.entry.now in
        IsHeard result.job (explained (matches_of ledger texts) (subcommand_of ledger texts)) result.is_explained }
{
    match parsed(alloc, words) {
        Ok(matches) => CommandLine {
            is_explained: is_explained(&matches),
            job: job_of(alloc, &matches),
        },
        Err(e) => CommandLine {
            is_explained: false,
            job: Err(JobFault::Words(e)),
        },
    }
}

/// The job that the words ask for. The first word is the program's name.
pub fn job<'a>(alloc: Global, words: &'a [&'a str]) -> Result<Job<'a>, JobFault>
    // A job comes only if no word is refused, and is that of the subcommand and its values.
    ensures ok { let texts = map (λ word. word.now) words.entry.now in
        IfOk result (λ j. (fault_of ledger texts ≡ []) × IsJob (subcommand_of ledger texts) j) }
    ensures fit { IfOk result IsFit }
    // Words are refused for one of the reasons that the command line gives, or because memory ran out. If nothing else is
    // wrong, they are refused for one of these: a number of tills that isn't 1 to 64, a name or an ID that no file or disk
    // has, a length that no record has, positions that no columns have, or flags that exclude one another.
    ensures err { let texts = map (λ word. word.now) words.entry.now in
        IfErr result (IsNoJob (fault_of ledger texts) (subcommand_of ledger texts)) }
{
    let CommandLine { job, .. } = command_line(alloc, words);
    job
}
