//! What a reader sees of an image and its log, also while a writer is at work.
ghost use Rattle.std.specs.Prelude.{◌≡◌, IfErr, IfOk, IsNone, IsSome, List, OnOk, Option, Some, length, true, ℕ};
ghost use Rattle.d64_image.specs.Images.{Image};
ghost use Rattle.image_log.specs.life.Faults.{IsMisfit};
ghost use Rattle.image_log.specs.life.Views.{Goes, GoesTo, HasLanded, IsLogViewed, Seen, SeenGives};
ghost use Rattle.image_log.specs.Readers.{IsOpened};

use crate::life::judging::see_own;
use crate::life::landing::LogFault;
use crate::log_reader::LogReader;
use crate::replaying::read_images;
use std::io;

/// What a view looks at: an image, and its log. A writer may go on meanwhile, as `Goes` says.
pub trait ViewsImage {
    /// The log, open to be read.
    type Log: LogReader;

    /// What stands there now, if that is known.
    ghost seen: { Self → Option Seen };

    // it is known that there is no log
    ghost HasNoLog: { Self → Type 0 } = { λ _. ⊥ };

    /// Opens the log; None if there is none. It is read before the image is.
    fn open_log(&mut self) -> io::Result<Option<Self::Log>>
        ensures none { HasNoLog self.old → IfOk result IsNone }
        ensures log { IfOk result (λ log. (s : Seen) → seen self.old ≡ Some s → IsOpened Self.Log.bytes log s.log) }
        // the log's name leads to it
        ensures named { IfOk result (λ log. (s : Seen) → seen self.old ≡ Some s → IsSome log → s.named ≡ true) }
        ensures goes { (s : Seen) → seen self.old ≡ Some s → GoesTo seen s self.new };

    /// Reads the 683 sectors of the image.
    fn read_image(&mut self, image: &mut [[u8; 256]]) -> io::Result<()>
        requires sized { length image.old ≡ 683 }
        ensures sized { length image.new ≡ 683 }
        ensures image { OnOk result ((s : Seen) → seen self.old ≡ Some s → image.new ≡ s.image) }
        ensures goes { (s : Seen) → seen self.old ≡ Some s → GoesTo seen s self.new };

    /// Syncs this log, which was opened and read, so that what is shown stays if the power fails. Returns whether a writer has
    /// landed it since. One that wasn't `marked` then has its mark now; one that was has lost its name.
    fn has_landed(&mut self, log: &mut Self::Log, marked: bool) -> io::Result<bool>
        ensures landed { IfOk result (λ landed. (s : Seen) → seen self.old ≡ Some s → HasLanded s marked landed) }
        ensures goes { (s : Seen) → seen self.old ≡ Some s → GoesTo seen s self.new };
}

/// Reads this log, and then the image, and checks the log beside it, unless a writer has landed it since: that writer
/// checked it, and IMAGE may have bytes of later commits.
pub(crate) fn view_log<V: ViewsImage>(
    folder: &mut V,
    log: &mut V::Log,
    now: &mut [[u8; 256]],
    base: &mut [[u8; 256]],
    shop: &mut [[u8; 256]],
) -> Result<(), LogFault>
    requires now { length now.old ≡ 683 }
    requires base { length base.old ≡ 683 }
    requires shop { length shop.old ≡ 683 }
    ensures now { length now.new ≡ 683 }
    ensures base { length base.new ≡ 683 }
    ensures shop { length shop.new ≡ 683 }
    ensures ok { OnOk result ((s t : Seen) (f : List ℕ) → V.seen folder.old ≡ Some t → Goes s t → V.Log.bytes log.old ≡ Some f
        → s.log ≡ Some f → s.named ≡ true → IsLogViewed V.seen s folder.new shop.new) }
    ensures refused { IfErr result (λ e. IsMisfit e → (s t : Seen) (f : List ℕ) → V.seen folder.old ≡ Some t → Goes s t
        → V.Log.bytes log.old ≡ Some f → s.log ≡ Some f → s.named ≡ true → (given : Image) → SeenGives s given → ⊥) }
{
    let marked = log.is_marked()?;
    read_images(log, base, shop)?;
    folder.read_image(now)?;
    if !folder.has_landed(log, marked)? {
        see_own(marked, now, base, shop)?;
    }
    Ok(())
}
