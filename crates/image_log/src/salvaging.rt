//! The image of a log alone.
ghost use Rattle.std.specs.Prelude.{◌≡◌, ◌≤◌, ◌⊎◌, IfErr, IfOk, List, Some, length, true, ℕ};
ghost use Rattle.image_log.specs.Salvage.{IsSalvaged};
ghost use Rattle.image_log.specs.Recovered.{base_end};
ghost use Rattle.image_log.specs.life.Faults.{IsMisfit};

use crate::life::judging::Misfit;
use crate::life::landing::LogFault;
use crate::log_blocks::read_blocks;
use crate::log_reader::LogReader;
use crate::replaying::replay;

/// What was taken of a log.
#[derive(Clone, Copy, Debug, PartialEq, Eq)]
pub struct Salvaged {
    /// How many commits, its base among them: 1 to 1,024.
    pub commits: usize,
    /// How many blocks after them were left out, up to the last one that has more than zeros: 0 to 1,023.
    pub left: usize,
}

/// The image that the whole commits of a log stand for, whatever stands after them and beside it. `NoBase`, and no disk's
/// image, if its first commit isn't whole.
pub fn salvage<L: LogReader>(log: &mut L, shop: &mut [[u8; 256]]) -> Result<Salvaged, LogFault>
    requires sized { length shop.old ≡ 683 }
    ensures sized { length shop.new ≡ 683 }
    ensures ok { IfOk result (λ salvaged. (f : List ℕ) → L.bytes log.old ≡ Some f → 4194304 ≤ length f
        → IsSalvaged f shop.new salvaged) }
    ensures refused { IfErr result (λ e. IsMisfit e → (f : List ℕ) → L.bytes log.old ≡ Some f → 4194304 ≤ length f
        → base_end f ≡ 0) }
    // an error is returned only if it has no base, or after a failure of the log
    ensures cause { IfErr result (λ e. IsMisfit e ⊎ (L.has_failed log.new ≡ true)) }
{
    let blocks = read_blocks(log)?;
    let whole = blocks.count_whole();
    let end = blocks.count_committed(whole);
    if end == 0 {
        return Err(Misfit::NoBase.into());
    }
    replay(log, end, shop)?;
    let left = blocks.count_written(end) - end;
    Ok(Salvaged {
        commits: blocks.count_commits(end),
        left,
    })
}
