//! Laws of a fresh disk, each the contract of a function that does nothing.
ghost use Rattle.shop_commands.specs.FreshShops.{DryBeginsFresh, DryTellsReplies, FreshBytesAreADisk};
ghost use Rattle.shop_commands.specs.FreshShops.{FreshIsAShop, FreshShowsItsTop, RunTellsDry, SamePlainScripts};

use d64_image::Sectors;

/// The bytes of a fresh disk, those that `format` writes, are a whole image. A fresh disk for 1 to 64 tills is a shop's,
/// at rest. The shop has no cards, nothing kept of any till, and so many tills (one more if their number is odd). It has
/// room for new cards up to the blank image's top (8819 for 64 tills), and no other file. `show` prints only that top.
pub fn fresh_is_a_shop()
    ensures bytes { FreshBytesAreADisk }
    ensures shop { FreshIsAShop }
    ensures shown { FreshShowsItsTop }
{}

/// On a fresh disk with 64 tills a list of requests begins in the state in which the dry run's begins. So the replies to
/// a script's lines there, each over the lines before it, are those that `dry` prints. `dry` refuses exactly the scripts
/// that aren't played so: those with a line that begins with `@`.
pub fn dry_is_play()
    ensures start { DryBeginsFresh }
    ensures replies { DryTellsReplies }
    ensures scripts { SamePlainScripts }
{}

/// If a script that `dry` doesn't refuse is played to its end on a fresh disk with 64 tills, what was printed is what
/// `dry` prints of it. This holds on any device.
pub fn run_tells_dry<D: Sectors>()
    ensures { RunTellsDry D.history }
{}
