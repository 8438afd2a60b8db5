//! The IDs of disks that the words give.
ghost use Rattle.std.specs.Prelude.{◌≡◌, MatchResult};
ghost use Rattle.ledger_cli.specs.Names.{IsIdOf, IsNoId};
ghost use Rattle.ledger_cli.specs.declared.faults.JobFault.TheVariants as faults;

use crate::faults::JobFault;
use line_text::read_text;

/// The ID of a disk that has this text: two bytes, typed as those of a name are. `Id` if the text is that of no two bytes.
pub(crate) fn id_of(text: &str) -> Result<[u8; 2], JobFault>
    ensures { MatchResult result (λ id. IsIdOf text.now id) (λ fault. (fault ≡ faults.Id) × IsNoId text.now) }
{
    let Some(bytes) = read_text(text.as_bytes()) else {
        return Err(JobFault::Id);
    };
    if bytes.len() != 2 {
        return Err(JobFault::Id);
    }
    Ok([bytes[0], bytes[1]])
}
