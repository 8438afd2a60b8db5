//! Laws of the changes between two lives, each the contract of a function that does nothing.
ghost use Rattle.std.specs.Prelude.{◌≡◌, ℕ, Bool, List, codes};
ghost use Rattle.changed_life.specs.Changes.{KeepsRecords, KeepsShops, SparesCards};
ghost use Rattle.d64_image.specs.Images.{Image};
ghost use Rattle.d64_image.specs.Memory.{disk_image, sectors_in};
ghost use Rattle.damaged_files.specs.declared.sides.planning.Loss.TheVariants.{Refused};
ghost use Rattle.disk_changes.specs.Changes.{IsChanged, IsFit};
ghost use Rattle.disk_changes.specs.Repairs.{IsRepaired};
ghost use Rattle.disk_changes.specs.declared.changes.Change.{Change};
ghost use Rattle.disk_changes.specs.declared.changes.Changed.{Changed};
ghost use Rattle.disk_layout.specs.Layout.{IsLayout, Layout};
ghost use Rattle.host_session.specs.shop.Shop.{IsShop, Shop};
ghost use Rattle.shop_life.specs.Chapters.{IsChapter};
ghost use Rattle.shop_life.specs.Lives.{IsLife, Step, off, went_all};

use d64_image::Sectors;

/// A change of a shop's disk, of whatever other files, keeps its cards and tills if the first STOCK and the first REQUESTS
/// have the records that they had.
pub fn kept_files_keep_the_cards()
    ensures { (old new : Image) (l m : Layout) → IsLayout old l → IsLayout new m
        → KeepsRecords old new l m (codes "STOCK") 18 → KeepsRecords old new l m (codes "REQUESTS") 127
        → KeepsShops old new }
{}

/// What `change` leaves of a shop's disk is the disk of a shop with the same cards and tills. This holds of each change but one
/// that stores records in a file of a shop.
pub fn the_changes_keep_the_cards()
    ensures { (what : Change) (image : List ℕ) (made : Changed) → IsFit what.kind.now → SparesCards what.kind.now → IsChanged what image made
        → KeepsShops (sectors_in image) (disk_image made.disk) }
{}

/// A repair that accepts no loss leaves the same shop, with the other files as they were.
pub fn a_repair_leaves_the_same_shop()
    ensures { (image : List ℕ) (free : Bool) (made : Changed) (s : Shop) → IsRepaired image free Refused made
        → IsShop (sectors_in image) s → IsShop (disk_image made.disk) s }
{}

/// So after such a change the life of the disk goes on with a new chapter.
pub fn a_change_begins_a_chapter<D: Sectors>()
    ensures { (s : Shop) (disk last next : D) (steps : List (Step D)) (what : Change) (image : List ℕ) (made : Changed)
        → IsShop (D.history.image disk) s → IsLife D.history (off disk) steps → went_all (off disk) steps ≡ off last
        → D.history.image last ≡ sectors_in image → IsFit what.kind.now → SparesCards what.kind.now → IsChanged what image made
        → D.history.image next ≡ disk_image made.disk
        → (t : Shop) × IsChapter D.history disk (record { steps = steps; next = next; shop = t }) }
{}
