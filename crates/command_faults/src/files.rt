//! The files of mirrors, handed back.
ghost use Rattle.std.specs.Prelude.{◌≡◌, ◌⊎◌, Err};
ghost use Rattle.d64_image.specs.KeptMirrors.{is_broken, mirror_file};
ghost use Rattle.command_faults.specs.declared.faults.CommandFault.TheVariants as faults;

use crate::faults::CommandFault;
use d64_image::{KeptMirror, SectorFile};

/// The file of a mirror over which a run ended so, and how it ends over the file: with `Device` if the file failed.
pub fn file_of<F: SectorFile, T: Drop>(
    mirror: KeptMirror<F>,
    ended: Result<T, CommandFault>,
) -> (F, Result<T, CommandFault>)
    ensures file { result.0 ≡ mirror_file mirror }
    ensures end { (is_broken mirror × (result.1 ≡ Err faults.Device)) ⊎ ((is_broken mirror → ⊥) × (result.1 ≡ ended)) }
{
    let failed = mirror.is_broken();
    let (file, _) = mirror.into_inner();
    if failed {
        return (file, Err(CommandFault::Device));
    }
    (file, ended)
}
