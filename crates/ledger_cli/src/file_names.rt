//! The names of files and disks that the words give.
ghost use Rattle.std.specs.Prelude.{◌≡◌, MatchResult};
ghost use Rattle.file_changes.specs.Names.{IsNameOf, name_bytes};
ghost use Rattle.file_changes.specs.NewNames.{IsNewName};
ghost use Rattle.ledger_cli.specs.Names.{IsNoName, IsNoNewName};
ghost use Rattle.ledger_cli.specs.declared.faults.JobFault.TheVariants as faults;

use crate::faults::JobFault;
use file_changes::Name;

/// The name that has this text. `Name` if no file and no disk can have it.
pub(crate) fn name_of(text: &str) -> Result<Name, JobFault>
    ensures { MatchResult result (λ name. IsNameOf text.now (name_bytes name)) (λ fault. (fault ≡ faults.Name) × IsNoName text.now) }
{
    match Name::read(text) {
        Some(name) => Ok(name),
        None => Err(JobFault::Name),
    }
}

/// The name that has this text, and that a file gets. `Name` if no file can get it.
pub(crate) fn new_name_of(text: &str) -> Result<Name, JobFault>
    ensures { MatchResult result (λ name. IsNameOf text.now (name_bytes name) × IsNewName (name_bytes name))
        (λ fault. (fault ≡ faults.Name) × IsNoNewName text.now) }
{
    let name = name_of(text)?;
    if !name.is_new() {
        return Err(JobFault::Name);
    }
    Ok(name)
}
