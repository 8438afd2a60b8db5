//! A ledger in memory: the quantity on hand of each item, and the last two requests of each till.
ghost use Rattle.std.specs.Prelude.{◌≡◌, ◌≤◌, ◌+◌, IfSome, None, Some, option_map, replicate};
ghost use Rattle.request_cards.specs.CardTexts.{IsEntry};
ghost use Rattle.request_cards.specs.Ledgers.{after, after_message, entry_of, is_new, next_in, number_of};
ghost use Rattle.request_cards.specs.Ledgers.{reply_in, standing as standing_in, word_in};
ghost use Rattle.request_cards.specs.Reading.{request_of};
ghost use Rattle.request_cards.specs.Requests.{IsAsk};
ghost use Rattle.request_cards.specs.Tables.{IsInTable, IsWithin, card_with, limits_of, newest_in, nth, renewed};
ghost use Rattle.request_cards.specs.Tables.{second_in, held_by, told_of, traded};
ghost use Rattle.request_cards.specs.Trade.{cards_after, put};

use crate::answer::Answer;
use crate::decision::{LAST_CARD, Outcome, decide, room_for};
use crate::reply::{Reply, Word};
use crate::request::Request;
use crate::request_card::RequestCard;
use crate::standing::{Standing, standing_of};

/// The greatest number of items: as many as the largest file has records.
pub const ITEMS: usize = LAST_CARD as usize;

/// A ledger in memory. It answers requests by the trade rule, each once. A shop on a disk keeps what it changes there
/// too.
#[derive(Drop)]
pub struct Ledger {
    /// The last item that a new card may have.
    pub top: u16,
    /// How many tills there are, 0 to 64.
    pub tills: u8,
    /// The quantity on hand of each item, from item 1 on.
    pub cards: [Option<u32>; ITEMS],
    /// The card of each till, from till 1 on.
    pub requests: [Option<RequestCard>; 64],
}

/// The card that a table holds for a till.
#[inline]
fn card_in(requests: &[Option<RequestCard>; 64], till: u8) -> Option<RequestCard>
    ensures value { result ≡ nth requests.now till }
    ensures within { IfSome result (λ _. (1 ≤ till) × (till ≤ 64)) }
{
    if till == 0 {
        return None;
    }
    let place = usize::from(till) - 1;
    if place < 64 { requests[place] } else { None }
}

/// Puts an item's new quantity into the table, if there is one.
fn renew_quantity(cards: &mut [Option<u32>; ITEMS], item: u16, quantity: Option<u32>)
    requires item { IfSome quantity (λ _. IsInTable item) }
    ensures { nth cards.new ≡ cards_after (nth cards.old) item quantity }
{
    if quantity.is_some() {
        cards[usize::from(item) - 1] = quantity;
    }
}

/// Puts a till's new card into the table.
fn renew_till(requests: &mut [Option<RequestCard>; 64], till: u8, card: RequestCard)
    requires low { 1 ≤ till }
    requires high { till ≤ 64 }
    ensures { nth requests.new ≡ put (nth requests.old) till (Some card) }
{
    requests[usize::from(till) - 1] = Some(card);
}

impl Ledger {
    /// No cards, and nothing kept, with these limits.
    pub fn new(tills: u8, top: u16) -> Ledger
        ensures tills { result.tills ≡ tills }
        ensures top { result.top ≡ top }
        ensures cards { result.cards ≡ replicate 10160 None }
        ensures requests { result.requests ≡ replicate 64 None }
    {
        Ledger {
            top,
            tills,
            cards: [None; ITEMS],
            requests: [None; 64],
        }
    }

    /// The quantity on hand of an item, if it has a card.
    #[inline]
    pub fn on_hand(&self, item: u16) -> Option<u32>
        ensures value { result ≡ nth self.now.cards item }
        ensures within { IfSome result (λ _. IsInTable item) }
    {
        if item == 0 {
            return None;
        }
        let place = usize::from(item) - 1;
        if place < ITEMS {
            self.cards[place]
        } else {
            None
        }
    }

    /// The last request of a till with its answer, if the till has one.
    #[inline]
    pub fn kept(&self, till: u8) -> Option<(Request, Answer)>
        ensures { result ≡ option_map (told_of till) ((held_by self.now).ledger.kept till) }
    {
        let card = card_in(&self.requests, till)?;
        Some((card.request(till).unwrap(), card.answer()))
    }

    /// The request of a till before its last one with its answer, if that is kept.
    #[inline]
    pub fn prior(&self, till: u8) -> Option<(Request, Answer)>
        ensures { result ≡ option_map (told_of till) ((held_by self.now).prior till) }
    {
        card_in(&self.requests, till)?.prior(till)
    }

    /// The standing of a request by what is kept of its till.
    // In line, since every message calls it.
    #[inline(always)]
    pub fn standing(&self, request: &Request) -> Standing
        ensures exact { result ≡ standing_in self.now.tills ((held_by self.now).ledger.kept request.now.till)
            ((held_by self.now).prior request.now.till) request.now }
        ensures new { is_new result ≡ next_in (limits_of self.now) (held_by self.now) request.now }
    {
        let till = request.till();
        standing_of(self.tills, self.kept(till), self.prior(till), request)
    }

    /// The trade rule's outcome for a request.
    pub fn decide(&self, request: &Request) -> Outcome
        requires top { self.now.top ≤ 10160 }
        ensures rule { result ≡ traded (nth self.now.cards) self.now.top request.now.body }
        // the table has places for the new quantities
        ensures item { IfSome result.quantity (λ _. IsInTable request.now.body.item) }
        ensures to { IfSome result.to_quantity (λ _. IsInTable request.now.body.to) }
    {
        let item = request.item();
        let to = request.to().unwrap_or(0);
        let room = room_for(self.top, item);
        decide(self.on_hand(item), self.on_hand(to), room, request)
    }

    /// The card of a till's next request, an open intent if the answer is done. Its second entry is the till's last
    /// request.
    pub fn next_card(&self, request: &Request, answer: Answer) -> RequestCard
        requires entry { IsEntry (entry_of (request.now, answer)) }
        requires next { request.now.number ≡ number_of ((held_by self.now).ledger.kept request.now.till) + 1 }
        ensures { result ≡ card_with (nth self.now.requests request.now.till) request.now answer }
    {
        let pending = answer.is_done();
        match card_in(&self.requests, request.till()) {
            Some(card) => card.followed_by(pending, *request, answer).unwrap(),
            None => RequestCard::new_v2(pending, *request, answer).unwrap(),
        }
    }

    /// Puts what a request changed into the tables: the new quantities, and its till's card.
    pub fn renew(&mut self, request: &Request, outcome: &Outcome, card: RequestCard)
        requires item { IfSome outcome.now.quantity (λ _. IsInTable request.now.body.item) }
        requires to { IfSome outcome.now.to_quantity (λ _. IsInTable request.now.body.to) }
        ensures state { held_by self.new ≡ renewed (held_by self.old) request.now outcome.now card }
        ensures limits { limits_of self.new ≡ limits_of self.old }
    {
        renew_quantity(&mut self.cards, request.item(), outcome.quantity);
        let to = request.to().unwrap_or(0);
        renew_quantity(&mut self.cards, to, outcome.to_quantity);
        renew_till(&mut self.requests, request.till(), card);
    }

    /// The word of the reply to a request, after which the ledger has what the request changed.
    fn word_on(&mut self, request: &Request) -> Word
        requires ask { IsAsk request.now }
        requires within { IsWithin self.old }
        ensures word { result ≡ word_in (limits_of self.old) (held_by self.old) request.now }
        ensures after { held_by self.new ≡ after (limits_of self.old) (held_by self.old) request.now }
        ensures limits { limits_of self.new ≡ limits_of self.old }
        ensures within { IsWithin self.new }
    {
        match self.standing(request) {
            Standing::Settled(word) => word,
            Standing::New => {
                let outcome = self.decide(request);
                let card = self.next_card(request, outcome.answer);
                self.renew(request, &outcome, card.answered());
                Word::Kept(outcome.answer)
            }
        }
    }

    /// The reply to a message, after which the ledger has what the message changed.
    pub fn reply(&mut self, message: &[u8]) -> Reply
        requires within { IsWithin self.old }
        ensures reply { result ≡ reply_in (limits_of self.old) (held_by self.old) (request_of message.now) }
        ensures after { held_by self.new
            ≡ after_message (limits_of self.old) (held_by self.old) (request_of message.now) }
        ensures limits { limits_of self.new ≡ limits_of self.old }
        ensures within { IsWithin self.new }
    {
        match Request::parse(message) {
            None => Reply::Syntax,
            Some(request) => Reply::Told {
                till: request.till(),
                number: request.number(),
                word: self.word_on(&request),
            },
        }
    }
}
