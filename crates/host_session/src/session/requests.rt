//! A message of a till, answered.
ghost use Rattle.std.specs.Prelude.{◌≡◌, false, true};
ghost use Rattle.host_session.specs.session.Answering.{IsAnswered};
ghost use Rattle.host_session.specs.session.Handled.{IsHandled};
ghost use Rattle.host_session.specs.shop.Shop.{IsShop, Shop, start_of};
ghost use Rattle.request_cards.specs.Ledgers.{next_in, word_in};
ghost use Rattle.request_cards.specs.Requests.{IsAsk};

use crate::session::Session;
use crate::session::answers::store_answer;
use d64_image::Sectors;
use request_cards::{Reply, Request, Standing, Word};

impl<D: Sectors> Session<D> {
    /// Answers a message of a till.
    ///
    /// If the message is no request, the reply is `Syntax`. A request that isn't its till's next one gets the reply
    /// that is kept of it, or the reason why it isn't taken; neither writes anything.
    ///
    /// The next request of a till is decided by the trade rule, and its answer is kept on the disk before it is
    /// returned. An answer that changes no card takes one write. Otherwise STOCK grows if a new card needs it, and then
    /// the request's intent, its card or both cards, and its answer are written.
    ///
    /// If the device fails, now or in an earlier message, the word of the reply is `MEDIA`, and the session is dead.
    /// The shop is then the one before the message or the one after it.
    pub fn handle(&mut self, message: &[u8]) -> Reply
        ensures { IsHandled D.history self.old self.new message.now result }
    {
        let dead = self.dead;
        let Some(request) = Request::parse(message) else {
            return Reply::Syntax;
        };
        Reply::Told {
            till: request.till(),
            number: request.number(),
            word: if dead {
                Word::Media
            } else {
                self.word_on(&request)
            },
        }
    }

    /// The word of the reply to a request.
    fn word_on(&mut self, request: &Request) -> Word
        requires ask { IsAsk request.now }
        requires alive { self.old.dead ≡ false }
        ensures quiet { (s : Shop) → IsShop (D.history.image self.old.disk) s
            → next_in (start_of s) s.state request.now ≡ false
            → (result ≡ word_in (start_of s) s.state request.now) × (self.new ≡ self.old) }
        ensures answered { IsAnswered D.history self.old self.new request.now result }
    {
        match self.ledger.standing(request) {
            Standing::Settled(word) => word,
            Standing::New => self.answer(request),
        }
    }

    /// Answers its till's next request: decides it by the ledger, keeps it on the disk, and renews the ledger.
    fn answer(&mut self, request: &Request) -> Word
        requires ask { IsAsk request.now }
        requires alive { self.old.dead ≡ false }
        requires next { (s : Shop) → IsShop (D.history.image self.old.disk) s
            → next_in (start_of s) s.state request.now ≡ true }
        ensures { IsAnswered D.history self.old self.new request.now result }
    {
        let outcome = self.ledger.decide(request);
        let card = self.ledger.next_card(request, outcome.answer);
        let before = self.ledger.on_hand(request.item());
        let Ok(()) = store_answer(&mut self.drive, request, &card, before) else {
            self.dead = true;
            return Word::Media;
        };
        self.ledger.renew(request, &outcome, card.answered());
        Word::Kept(outcome.answer)
    }
}
