//! Laws of every life of a shop, each the contract of a function that does nothing.
ghost use Rattle.std.specs.Prelude.{◌≡◌, ◌≢◌, ◌≤◌, ◌<◌, ◌++◌, ℕ, Err, List, [], ◌∷◌, Ok, Some, false};
ghost use Rattle.d64_image.specs.History.{NeverFailed};
ghost use Rattle.d64_image.specs.Images.{Image};
ghost use Rattle.disk_layout.specs.Clean.{IsClean};
ghost use Rattle.disk_layout.specs.Layout.{IsSound};
ghost use Rattle.disk_layout.specs.Rest.{Rest};
ghost use Rattle.disk_layout.specs.Whole.{IsWhole};
ghost use Rattle.host_session.specs.declared.faults.OpenFault.{OpenFault};
ghost use Rattle.host_session.specs.session.Handled.{IsHandled};
ghost use Rattle.host_session.specs.session.Handling.{IsMedia};
ghost use Rattle.host_session.specs.session.Opened.{IsOpened, Opened, disk_of};
ghost use Rattle.host_session.specs.session.Opening.{Untouched};
ghost use Rattle.host_session.specs.session.Standing.{View};
ghost use Rattle.host_session.specs.shop.Shop.{IsShop, Shop, start_of};
ghost use Rattle.request_cards.specs.Ledgers.{number_of, reply};
ghost use Rattle.request_cards.specs.Reading.{request_of};
ghost use Rattle.request_cards.specs.Requests.{Ask};
ghost use Rattle.request_cards.specs.declared.reply.Reply.{Reply};
ghost use Rattle.shop_life.specs.Chapters.{AllHeldIn, AreChapters, Chapter, HasNumbersOf, HaveLists};
ghost use Rattle.shop_life.specs.Goods.{GoodsAgree};
ghost use Rattle.shop_life.specs.Lives.{IsHeldIn, IsLife, May, Place, Step, asks_of, disk_at, message_in, off, on};
ghost use Rattle.shop_life.specs.Lives.{shop_after, went_all};
ghost use Rattle.shop_life.specs.Lives.Step.{handles};
ghost use Rattle.shop_life.specs.OneList.{AllHeld, HasOneList, IsAfter, IsLived, KeepAll, NoneOfTill, Stays, counted_from};
ghost use Rattle.shop_life.specs.Rest.{HasRestOf};
ghost use Rattle.shop_life.specs.Tills.{FitAll, Happening, HoldsAtAllEnds, first_scene, followed_all};
ghost use Rattle.shop_life.specs.Worked.{Pictures, page, paper, worked};

use d64_image::Sectors;

/// Every life of a shop has one list of requests. A part of it goes with each step, so that each reply is the rule's over the
/// parts before it, each image held is the shop after them, or after the step's own message too, and an opening of a device that
/// doesn't fail succeeds. Each image held at any moment is the shop after a first part of the one list; if power goes in a
/// call, that is the image that power left.
pub fn one_list<D: Sectors>()
    ensures { (s : Shop) (disk : D) (steps : List (Step D)) → IsShop (D.history.image disk) s
        → IsLife D.history (off disk) steps → HasOneList D.history s (off disk) steps }
{}

/// What is in the list of some first steps, each request that was answered among it, is on each image that is held later, at any
/// moment of any step.
pub fn answered_stays<D: Sectors>()
    ensures { (s : Shop) (disk : D) (first later : List (Step D)) → IsShop (D.history.image disk) s
        → IsLife D.history (off disk) first → IsLife D.history (went_all (off disk) first) later
        → Stays D.history s (off disk) first later }
{}

/// So the number of a till's last request never goes back, on any image that is held later.
pub fn never_falls<D: Sectors>()
    ensures { (s t : Shop) (disk : D) (first later : List (Step D)) → IsShop (D.history.image disk) s
        → IsLife D.history (off disk) first → IsLife D.history (went_all (off disk) first) later
        → IsShop (D.history.image (disk_at (went_all (off disk) first))) t
        → AllHeld D.history (λ c. (u : Shop) → IsShop c u → (till : ℕ)
        → number_of (t.state.ledger.kept till) ≤ number_of (u.state.ledger.kept till))
        (went_all (off disk) first) later }
{}

/// Tills that ask until they hear, over every life of the shop: messages and replies may be lost, repeated or reordered, power may
/// go at any moment, and the device may fail. Each till has got its new requests with their answers, in order and each once, and at
/// most one more of its requests is new.
pub fn all_ends<D: Sectors>()
    ensures { (s : Shop) (disk : D) (happenings : List (Happening D)) → IsShop (D.history.image disk) s
        → FitAll D.history (start_of s) (first_scene s disk) happenings
        → HoldsAtAllEnds D.history s (followed_all (start_of s) (first_scene s disk) happenings) }
{}

/// Each image that a life holds is sound: each block has one owner at most. The other files, the limit of new cards and the tills
/// stay.
pub fn the_rest_stays<D: Sectors>()
    ensures { (s : Shop) (disk : D) (steps : List (Step D)) → IsShop (D.history.image disk) s
        → IsLife D.history (off disk) steps → AllHeld D.history (HasRestOf s) (off disk) steps }
{}

/// If all files are whole at the start, none is cut short on any image that a life holds.
pub fn files_stay_whole<D: Sectors>()
    ensures { (s : Shop) (disk : D) (steps : List (Step D)) → IsShop (D.history.image disk) s
        → IsWhole (D.history.image disk) → IsLife D.history (off disk) steps
        → AllHeld D.history IsWhole (off disk) steps }
{}

/// Opening is idempotent: a disk that was opened isn't written by the next opening.
pub fn opened_again<D: Sectors>()
    ensures { (d : D) (v : View D) (r : Opened D) → IsOpened D.history d (Ok v) → IsOpened D.history v.disk r
        → Untouched D.history v.disk (disk_of r) }
{}

/// No goods appear over a life and none are lost: what the disk had on hand of all items at the start, and what the list brings in, is
/// what it has at the end and what the list takes out.
pub fn goods_stay<D: Sectors>()
    ensures { (s t : Shop) (disk : D) (steps : List (Step D)) → IsShop (D.history.image disk) s
        → IsLife D.history (off disk) steps → IsShop (D.history.image (disk_at (went_all (off disk) steps))) t
        → (parts : List (List Ask)) × KeepAll D.history s [] (off disk) steps parts
        × GoodsAgree s (counted_from [] parts) t }
{}

/// The life of a disk goes on over other commands: each chapter has its one list, over the shop with which it begins, and no number
/// of a till that the disk had goes back. Between two chapters a command changed the disk and kept its cards and tills.
pub fn chapters_have_lists<D: Sectors>()
    ensures { (s : Shop) (disk : D) (chapters : List (Chapter D)) → IsShop (D.history.image disk) s
        → AreChapters D.history disk chapters
        → HaveLists D.history s disk chapters × AllHeldIn D.history (HasNumbersOf s) disk chapters }
{}

/// No life has an answer other than the rule's over what counted before it, such as one that is decided in another order.
pub fn a_wrong_answer_is_seen<D: Sectors>()
    ensures { (s : Shop) (disk : D) (steps : List (Step D)) (parts : List (List Ask)) (v new : View D)
        (m : List ℕ) (told : Reply) → IsLived D.history s disk steps parts (on v) → IsHandled D.history v new m told
        → ¬ (IsMedia told) → told ≢ reply (start_of s) (counted_from [] parts) (request_of m) → ⊥ }
{}

/// Nor a message that gets MEDIA though the session lived and its device didn't fail.
pub fn a_dropped_message_is_seen<D: Sectors>()
    ensures { (s : Shop) (disk : D) (steps : List (Step D)) (parts : List (List Ask)) (v new : View D)
        (m : List ℕ) (told : Reply) → IsLived D.history s disk steps parts (on v) → IsHandled D.history v new m told
        → v.dead ≡ false → NeverFailed D.history v.disk new.disk → IsMedia told → ⊥ }
{}

/// Nor an answer after which the disk is another shop than the one after its request: the request dropped, stored by half, or
/// stored before an earlier one.
pub fn an_unstored_answer_is_seen<D: Sectors>()
    ensures { (s : Shop) (disk : D) (steps : List (Step D)) (parts : List (List Ask)) (v new : View D)
        (m : List ℕ) (told : Reply) (u : Shop) → IsLived D.history s disk steps parts (on v) → IsHandled D.history v new m told
        → ¬ (IsMedia told) → IsShop (D.history.image new.disk) u
        → u ≢ shop_after s (counted_from [] parts ++ asks_of (Some m)) → ⊥ }
{}

/// Nor an answer after which goods are missing, or too many.
pub fn lost_goods_are_seen<D: Sectors>()
    ensures { (s : Shop) (disk : D) (steps : List (Step D)) (parts : List (List Ask)) (v new : View D)
        (m : List ℕ) (told : Reply) (u : Shop) → IsLived D.history s disk steps parts (on v) → IsHandled D.history v new m told
        → ¬ (IsMedia told) → IsShop (D.history.image new.disk) u
        → (GoodsAgree s (counted_from [] parts ++ asks_of (Some m)) u → ⊥) → ⊥ }
{}

/// Nor a request that is asked again before its till's next one, and gets another answer than it got.
pub fn another_answer_is_seen<D: Sectors>()
    ensures { (s : Shop) (disk : D) (steps : List (Step D)) (parts : List (List Ask)) (v new : View D)
        (m : List ℕ) (told : Reply) (a : Ask) (first later : List Ask)
        → IsLived D.history s disk steps parts (on v) → IsHandled D.history v new m told
        → request_of m ≡ Some a → counted_from [] parts ≡ first ++ a ∷ later → NoneOfTill a later → ¬ (IsMedia told)
        → told ≢ reply (start_of s) first (Some a) → ⊥ }
{}

/// Nor one that then counts again.
pub fn a_second_count_is_seen<D: Sectors>()
    ensures { (s : Shop) (disk : D) (steps : List (Step D)) (parts : List (List Ask)) (v new : View D)
        (m : List ℕ) (told : Reply) (a : Ask) (first later : List Ask)
        → IsLived D.history s disk steps parts (on v) → IsHandled D.history v new m told
        → request_of m ≡ Some a → counted_from [] parts ≡ first ++ a ∷ later → NoneOfTill a later → ¬ (IsMedia told)
        → (u : Shop) → IsShop (D.history.image new.disk) u → u ≢ shop_after s (counted_from [] parts) → ⊥ }
{}

/// Nor an image, for a moment, of another shop than the one after the list, or after the message under way too.
pub fn another_image_is_seen<D: Sectors>()
    ensures { (s : Shop) (disk : D) (steps : List (Step D)) (parts : List (List Ask)) (p : Place D) (x : Step D)
        (c : Image) (u : Shop) → IsLived D.history s disk steps parts p → May D.history p x → IsHeldIn D.history p x c
        → IsShop c u → u ≢ shop_after s (counted_from [] parts)
        → u ≢ shop_after s (counted_from [] parts ++ asks_of (message_in x)) → ⊥ }
{}

/// Nor an image, for a moment, that lacks a till's request which counted.
pub fn a_vanished_request_is_seen<D: Sectors>()
    ensures { (s : Shop) (disk : D) (steps : List (Step D)) (parts : List (List Ask)) (p : Place D) (x : Step D)
        (c : Image) (u : Shop) (till : ℕ) → IsLived D.history s disk steps parts p → May D.history p x → IsHeldIn D.history p x c
        → IsShop c u → number_of (u.state.ledger.kept till)
        < number_of ((shop_after s (counted_from [] parts)).state.ledger.kept till) → ⊥ }
{}

/// Nor a message that is taken back: an image of the shop after it was held, and at the end of its call the disk is the shop's
/// before it.
pub fn a_message_taken_back_is_seen<D: Sectors>()
    ensures { (s : Shop) (disk : D) (steps : List (Step D)) (parts : List (List Ask)) (v new : View D)
        (m : List ℕ) (told : Reply) (c : Image) → IsLived D.history s disk steps parts (on v)
        → IsHandled D.history v new m told → IsHeldIn D.history (on v) (handles m told new) c
        → IsAfter s (counted_from [] parts ++ asks_of (Some m)) c
        → IsAfter s (counted_from [] parts) (D.history.image new.disk)
        → shop_after s (counted_from [] parts ++ asks_of (Some m)) ≢ shop_after s (counted_from [] parts) → ⊥ }
{}

/// Nor an image, for a moment, with another file changed.
pub fn a_changed_file_is_seen<D: Sectors>()
    ensures { (s : Shop) (disk : D) (steps : List (Step D)) (parts : List (List Ask)) (p : Place D) (x : Step D)
        (c : Image) (u : Shop) → IsLived D.history s disk steps parts p → May D.history p x → IsHeldIn D.history p x c
        → IsShop c u → u.rest ≢ s.rest → ⊥ }
{}

/// Nor an image, for a moment, on which a block has two owners.
pub fn a_second_owner_is_seen<D: Sectors>()
    ensures { (s : Shop) (disk : D) (steps : List (Step D)) (parts : List (List Ask)) (p : Place D) (x : Step D)
        (c : Image) → IsLived D.history s disk steps parts p → May D.history p x → IsHeldIn D.history p x c
        → (IsSound c → ⊥) → ⊥ }
{}

/// Nor a session that lives on a disk whose map of blocks is wrong.
pub fn a_wrong_map_is_seen<D: Sectors>()
    ensures { (s : Shop) (disk : D) (steps : List (Step D)) (parts : List (List Ask)) (v : View D)
        → IsLived D.history s disk steps parts (on v) → v.dead ≡ false → (IsClean (D.history.image v.disk) → ⊥) → ⊥ }
{}

/// Nor an opening that refuses the disk though its device doesn't fail.
pub fn a_refused_shop_is_seen<D: Sectors>()
    ensures { (s : Shop) (disk : D) (steps : List (Step D)) (parts : List (List Ask)) (d : D) (e : OpenFault × D)
        → IsLived D.history s disk steps parts (off d) → IsOpened D.history d (Err e) → NeverFailed D.history d e.1 → ⊥ }
{}

/// Nor one that leaves another shop than it found.
pub fn a_forgotten_request_is_seen<D: Sectors>()
    ensures { (s : Shop) (disk : D) (steps : List (Step D)) (parts : List (List Ask)) (d : D) (v : View D) (u : Shop)
        → IsLived D.history s disk steps parts (off d) → IsOpened D.history d (Ok v)
        → IsShop (D.history.image v.disk) u → u ≢ shop_after s (counted_from [] parts) → ⊥ }
{}

/// Lives have events: of a shop that has these images one is worked out, with three messages, power that goes twice in a message
/// and once in a recovery, and the replies that the trade rule gives by hand.
pub fn a_worked_life()
    ensures { (rest : Rest) (x : Pictures rest) → IsLife paper (off (page rest x x.none [] 0)) (worked rest x) }
{}
