//! Laws of what a disk stands for, each the contract of a function that does nothing.

ghost use Rattle.std.specs.Prelude.{◌≡◌, ◌++◌, ℕ, List, length};
ghost use Rattle.d64_image.specs.Images.{Image};
ghost use Rattle.host_session.specs.declared.faults.OpenFault.{OpenFault};
ghost use Rattle.host_session.specs.events.Events.{Message};
ghost use Rattle.host_session.specs.runs.Chains.{GrowsFrom, HasRun};
ghost use Rattle.host_session.specs.session.Opening.{Refuses};
ghost use Rattle.host_session.specs.shop.Blank.{BlankIsAShop};
ghost use Rattle.host_session.specs.shop.Shop.{IsShop, Shop, start_of};
ghost use Rattle.request_cards.specs.Lines.{KeepsLastTwo};
ghost use Rattle.request_cards.specs.Requests.{Ask};
ghost use Rattle.request_cards.specs.Steps.{HoldsAtBothEnds, Step, after_steps};
ghost use Rattle.request_cards.specs.declared.reply.Reply.{Reply};

use d64_image::Sectors;

/// A disk is at most one shop's.
pub fn one_shop()
    ensures { (img : Image) (s t : Shop) → IsShop img s → IsShop img t → s ≡ t }
{}

/// A disk with a fault of opening, other than the device's, is no shop's.
pub fn refused_no_shop()
    ensures { (img : Image) (fault : OpenFault) (s : Shop) → Refuses ⊥ img fault → ¬ (IsShop img s) }
{}

/// What a shop keeps of a till is the last two of all requests that the till was ever answered, with their answers. All
/// of them are those that the disk held, and then the new ones of the requests that follow.
pub fn last_two()
    ensures { (img : Image) (s : Shop) → IsShop img s → (asks : List Ask) (till : ℕ)
        → KeepsLastTwo (start_of s) asks till }
{}

/// Messages to a shop and replies may be lost, repeated or reordered, and power may fail at any point. Each till has
/// still got its new requests with their answers, in order and each once, and at most one more of its requests is new.
/// It never got a reply that means that it went astray.
pub fn both_ends()
    ensures { (s : Shop) (steps : List Step) (till : ℕ)
        → HoldsAtBothEnds (start_of s) (after_steps (start_of s) steps) till }
{}

/// Prefixes only grow in a run: after any of its events the disk is at rest, and from then on it holds no image of a
/// shorter prefix. So no write is taken back and made again, and no reply that was passed on is lost on the way. A run
/// that a device ended is such a run up to its last event.
pub fn only_grows<D: Sectors>()
    ensures { (s : Shop) (ms ns : List Message) (xs ys : List (Reply × D)) (old new : D) → length ms ≡ length xs
        → HasRun D.history s (ms ++ ns) (xs ++ ys) old new → GrowsFrom D.history s ms ns xs old new }
{}

/// The blank image for 1 to 64 tills is a shop's, whatever the disk held before, and at rest. It has no cards, and
/// nothing is kept of any till. It has this number of tills, or one more if the number is odd, and room for new cards
/// up to item `blank_top tills`. It has no other file, and the name and the id that it was given.
pub fn blank_is_a_shop()
    ensures { BlankIsAShop }
{}
