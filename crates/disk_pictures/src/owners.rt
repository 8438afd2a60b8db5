//! Whose a sector is: a table with an owner for each place of the disk.
ghost use Rattle.std.specs.Prelude.{◌≡◌, length};

use crate::drawn_file::DrawnFile;
use d64_image::{Place, SECTORS};
use disk_layout::map_place;

/// Whose a sector is. If several have it, it is the first one's, in the order of these. If several entries have it, it is
/// that of the first one in the directory, and its block before its side sector.
#[derive(Clone, Copy)]
pub enum Owner {
    /// The map: 18/0.
    Map,
    /// The directory.
    Directory,
    /// The entry with this number, from 0, as one of its blocks.
    Blocks(usize),
    /// The entry with this number, as one of its side sectors.
    Sides(usize),
    /// Nothing that is drawn.
    Nobody,
}

/// An owner for each place of the disk, so that each is found in equal time.
#[derive(Drop)]
pub(crate) struct Owners {
    owners: [Owner; SECTORS],
    pub ghost full: { length owners ≡ 683 },
}

impl Owners {
    ghost use Rattle.std.specs.Prelude.{if◌then◌else◌, map};
    ghost use Rattle.disk_pictures.specs.Drawings.{drawn_of, file_in, has, owner_among, owner_of};
    ghost use Rattle.disk_pictures.specs.Owners.{owner_in};
    ghost use Rattle.disk_pictures.specs.declared.owners.Owner.TheVariants as owners;

    /// Those of what is drawn: the directory's sectors and the entries.
    pub(crate) fn of(directory: &[Place], files: &[DrawnFile]) -> Owners
        ensures { (p : Place) → owner_in result p ≡ owner_of (drawn_of directory.now files.now) p }
    {
        let mut owners = Owners::nobody();
        owners.give_entries(files);
        owners.give(directory, Owner::Directory);
        owners.give(&[map_place()], Owner::Map);
        owners
    }

    /// All sectors of nobody.
    fn nobody() -> Owners
        ensures { (p : Place) → owner_in result p ≡ owners.Nobody }
    {
        Owners {
            owners: [Owner::Nobody; SECTORS],
        }
    }

    /// Whose the sector is.
    pub(crate) fn owner(&self, place: Place) -> Owner
        ensures { result ≡ owner_in self.now place }
    {
        self.owners[place.index()]
    }

    /// Gives the sectors to this owner, whosever they were.
    fn give(&mut self, places: &[Place], owner: Owner)
        ensures { (p : Place) → owner_in self.new p ≡ (if has places.now p then owner else owner_in self.old p) }
    {
        for &place in places {
            self.owners[place.index()] = owner;
        }
    }

    /// Gives each entry its sectors, the last entry first, and of each the side sectors before the blocks: what is
    /// given later stays.
    fn give_entries(&mut self, files: &[DrawnFile])
        requires { (p : Place) → owner_in self.old p ≡ owners.Nobody }
        ensures { (p : Place) → owner_in self.new p ≡ owner_among 0 (map file_in files.now) p }
    {
        for number in (0..files.len()).rev() {
            let file = &files[number];
            self.give(file.sides.as_slice(), Owner::Sides(number));
            self.give(file.blocks.as_slice(), Owner::Blocks(number));
        }
    }
}
