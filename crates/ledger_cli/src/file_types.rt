//! The types of files that the words name.
ghost use Rattle.std.specs.Prelude.{◌≡◌, None, MatchResult, Some};
ghost use Rattle.ledger_cli.specs.Names.{entry_type_named, type_named as named_type};
ghost use Rattle.ledger_cli.specs.declared.faults.JobFault.TheVariants as faults;

use crate::faults::JobFault;
use disk_changes::EntryType;
use file_changes::FileType;

/// The type of a file that has this word.
fn type_named(word: &str) -> Option<FileType>
    ensures { result ≡ named_type word.now }
{
    if word == "prg" {
        return Some(FileType::Prg);
    }
    if word == "seq" {
        return Some(FileType::Seq);
    }
    if word == "usr" {
        return Some(FileType::Usr);
    }
    None
}

/// The type of a file that has this word. `Kind` if none has it.
pub(crate) fn type_of(word: &str) -> Result<FileType, JobFault>
    ensures { MatchResult result (λ kind. named_type word.now ≡ Some kind) (λ fault. (fault ≡ faults.Kind) × (named_type word.now ≡ None)) }
{
    match type_named(word) {
        Some(kind) => Ok(kind),
        None => Err(JobFault::Kind),
    }
}

/// The type of a deleted file that has this word. `Kind` if none has it.
pub(crate) fn entry_type_of(word: &str) -> Result<EntryType, JobFault>
    ensures { MatchResult result (λ kind. entry_type_named word.now ≡ Some kind)
        (λ fault. (fault ≡ faults.Kind) × (entry_type_named word.now ≡ None)) }
{
    if word == "rel" {
        return Ok(EntryType::Relative);
    }
    match type_named(word) {
        Some(kind) => Ok(EntryType::Plain(kind)),
        None => Err(JobFault::Kind),
    }
}
