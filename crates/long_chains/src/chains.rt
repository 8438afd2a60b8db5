//! The sectors of a chain over all tracks of an image.
ghost use Rattle.std.specs.Prelude.{◌≡◌};
ghost use Rattle.std.specs.List.{AllByRecursion};
ghost use Rattle.long_chains.specs.Chains as specs;
ghost use Rattle.long_chains.specs.Chains.{chain_of, if_ended};
ghost use Rattle.long_chains.specs.Sectors.{HasSector};

use crate::sectors::sector_at;
use arrayvec::ArrayVec;

/// How many sectors an image has at most: those of 42 tracks. A chain that comes to its end has each of them at most once.
pub const MOST_SECTORS: usize = 802;

/// Fills `chain` with the numbers of the sectors of the chain that begins at this track and sector, in order. Returns whether the chain
/// comes to its end: then these are all of its sectors. It doesn't if a link leads to no sector of the image, or back.
pub fn long_chain(
    image: &[u8],
    track: u8,
    sector: u8,
    chain: &mut ArrayVec<u16, MOST_SECTORS>,
) -> bool
    ensures value { if_ended result chain.new.items ≡ chain_of image.now track sector }
    ensures inside { AllByRecursion (HasSector image.now) chain.new.items }
{
    chain.clear();
    let mut link = (track, sector);
    'walk: while chain.len() < MOST_SECTORS {
        let Some(number) = sector_at(image, link.0, link.1) else {
            return false;
        };
        chain.push(number as u16);
        let start = 256 * number;
        if image[start] == 0 {
            return true;
        }
        link = (image[start], image[start + 1]);
    }
    false
}

/// Whether the chain that begins at this track and sector comes to its end, and has the sector with this number.
pub fn is_on_chain(image: &[u8], track: u8, sector: u8, number: u16) -> bool
    ensures { result ≡ specs.is_on_chain image.now track sector number }
{
    let mut chain = ArrayVec::new();
    if !long_chain(image, track, sector, &mut chain) {
        return false;
    }
    chain.as_slice().contains(&number)
}
