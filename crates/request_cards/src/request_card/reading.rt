//! Request cards that are read from their bytes.
ghost use Rattle.std.specs.Prelude.{
  ◌≡◌,
  ◌≤◌,
  ◌+◌,
  ◌++◌,
  ℕ,
  List,
  Option,
  IfNone,
  IfSome,
  IsTrue,
  drop,
  replicate,
  slice_index,
};
ghost use Rattle.request_cards.specs.CardReading.{request_card_of};
ghost use Rattle.request_cards.specs.CardTexts.{Card, IsCardText, IsEntry, second_text};
ghost use Rattle.request_cards.specs.Ledgers.{Entry};

use super::{REQUEST_CARD_LENGTH, RequestCard, made};
use crate::entry::CardEntry;

/// Whether this many zeros are at this index.
fn zeros_at(bytes: &[u8; REQUEST_CARD_LENGTH], at: usize, count: usize) -> bool
    requires { at + count ≤ 127 }
    ensures found { IsTrue result → drop at bytes.now ≡ replicate count 0 ++ drop (at + count) bytes.now }
    ensures none { (rest : List ℕ) → drop at bytes.now ≡ replicate count 0 ++ rest → IsTrue result }
{
    for i in 0..count {
        if bytes[at + i] != 0 {
            return false;
        }
    }
    true
}

/// The second entry of a version 2 card, which is answered, or none if zeros are in its place.
fn read_second(bytes: &[u8; REQUEST_CARD_LENGTH]) -> Option<Option<CardEntry>>
    ensures found { IfSome result (λ s. drop 59 bytes.now ≡ second_text s ++ drop 117 bytes.now) }
    ensures range { IfSome result (λ s. IfSome s IsEntry) }
    ensures none { IfNone result ((s : Option Entry) (rest : List ℕ) → IfSome s IsEntry
        → ¬ (drop 59 bytes.now ≡ second_text s ++ rest)) }
{
    if zeros_at(bytes, 59, 58) {
        return Some(None);
    }
    let (pending, second) = CardEntry::read(bytes, 59)?;
    if pending { None } else { Some(Some(second)) }
}

impl RequestCard {
    /// The version 1 card that has this text.
    fn read_v1(bytes: &[u8; REQUEST_CARD_LENGTH]) -> Option<RequestCard>
        ensures found { IfSome result (λ c. IsCardText bytes.now c) }
        ensures none { IfNone result ((c : Card) → c.version ≡ 1 → ¬ IsCardText bytes.now c) }
    {
        let (pending, newest) = CardEntry::read_old(bytes)?;
        if !zeros_at(bytes, 42, 85) {
            return None;
        }
        made(1, pending, newest, None)
    }

    /// The version 2 card that has this text, which begins with a 2.
    fn read_v2(bytes: &[u8; REQUEST_CARD_LENGTH]) -> Option<RequestCard>
        requires { slice_index bytes.now 0 ≡ 50 }
        ensures found { IfSome result (λ c. IsCardText bytes.now c) }
        ensures none { IfNone result ((c : Card) → c.version ≡ 2 → ¬ IsCardText bytes.now c) }
    {
        let (pending, newest) = CardEntry::read(bytes, 1)?;
        let second = read_second(bytes)?;
        if !zeros_at(bytes, 117, 10) {
            return None;
        }
        made(2, pending, newest, second)
    }

    /// The card that has this text, read part by part at its index.
    fn read(bytes: &[u8; REQUEST_CARD_LENGTH]) -> Option<RequestCard>
        ensures found { IfSome result (λ c. IsCardText bytes.now c) }
        ensures none { IfNone result ((c : Card) → ¬ IsCardText bytes.now c) }
    {
        if bytes[0] == b'2' {
            RequestCard::read_v2(bytes)
        } else {
            RequestCard::read_v1(bytes)
        }
    }

    /// The card that has this text.
    pub fn parse(bytes: &[u8; REQUEST_CARD_LENGTH]) -> Option<RequestCard>
        // What is read has this text.
        ensures found { IfSome result (λ c. IsCardText bytes.now c) }
        // No text of a card is refused.
        ensures none { IfNone result ((c : Card) → ¬ IsCardText bytes.now c) }
        // The same as a function.
        ensures exact { result ≡ request_card_of bytes.now }
    {
        RequestCard::read(bytes)
    }
}
