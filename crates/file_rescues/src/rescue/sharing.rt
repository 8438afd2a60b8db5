//! The owners of the sectors of a disk, by the files that are rescued.
ghost use Rattle.damaged_files.specs.reached.Owned.{CountsAll};
ghost use Rattle.file_rescues.specs.rescue.Sharing.{owned};

use crate::rescue::rescuing::Rescued;
use d64_image::Place;
use damaged_files::Owners;

/// How many have each sector: the map, a directory with these sectors, and these files.
pub(crate) fn owners_of(directory: &[Place], files: &[Rescued]) -> Owners
    ensures { CountsAll result (owned directory.now files.now) }
{
    let mut owners = Owners::of_directory(directory);
    for file in files {
        owners.add(file.blocks.as_slice());
    }
    owners
}
