//! The table of a shop.
ghost use Rattle.std.specs.Prelude.{◌≡◌};

use crate::answers::{Answer, Reply, Request};

/// How many cards the table has at most.
pub(crate) const CARDS: usize = 512;

/// How many tills it has at most.
pub(crate) const TILLS: usize = 8;

/// The quantity of an item without a card.
pub(crate) const NO_CARD: u32 = u32::MAX;

/// How many of an item a card can count.
const MOST: u32 = 999_999_999;

/// The last card of the longest file.
const LAST_CARD: u32 = 10160;

/// A request with its answer.
#[derive(Clone, Copy)]
pub(crate) struct Kept {
    pub(crate) request: Request,
    pub(crate) answer: Answer,
}

/// A till: its last request, and the one before it.
#[derive(Clone, Copy)]
pub(crate) struct Till {
    pub(crate) last: Kept,
    pub(crate) prior: Kept,
}

/// No request.
const NEVER: Kept = Kept {
    request: Request::NONE,
    answer: Answer::NoCard,
};

/// A shop: the quantity of each card, and the tills.
#[derive(Clone, Copy)]
pub struct Shop {
    pub(crate) tills: u32,
    /// The last item whose card the disk can still hold. It is above all items that get a card here.
    pub(crate) top: u32,
    pub(crate) cards: [u32; CARDS],
    pub(crate) books: [Till; TILLS],
}

impl Shop {
    /// An empty shop of so many tills, at most eight.
    pub fn new(tills: u32) -> Shop {
        Shop {
            tills,
            top: 9000,
            cards: [NO_CARD; CARDS],
            books: [Till {
                last: NEVER,
                prior: NEVER,
            }; TILLS],
        }
    }

    /// How many tills it has.
    pub fn tills(&self) -> u32 {
        self.tills
    }

    /// A till, by its number from 1 on. One that there isn't has no requests.
    pub(crate) fn till(&self, number: u32) -> Till {
        let found = self.books.get((number as usize).wrapping_sub(1)).copied();
        found.unwrap_or(Till {
            last: NEVER,
            prior: NEVER,
        })
    }

    /// The last request of a till. Its number is 0 if there is none.
    pub fn last_of(&self, till: u32) -> Request {
        self.till(till).last.request
    }

    /// The request of a till before its last one. Its number is 0 if there is none.
    pub fn prior_of(&self, till: u32) -> Request {
        self.till(till).prior.request
    }

    /// The quantity of an item.
    fn on_hand(&self, item: u32) -> u32 {
        self.cards.get(item as usize).copied().unwrap_or(NO_CARD)
    }

    /// Writes the quantity on an item's card.
    fn put(&mut self, item: u32, quantity: u32) {
        if let Some(card) = self.cards.get_mut(item as usize) {
            *card = quantity;
        }
    }

    /// The answer to a request to set.
    fn set(&mut self, item: u32, quantity: u32) -> Answer {
        if self.on_hand(item) != NO_CARD || item <= self.top {
            self.put(item, quantity);
            return Answer::Done(quantity);
        }
        if item <= LAST_CARD {
            Answer::DiskFull
        } else {
            Answer::TooLarge
        }
    }

    /// The answer to a request to receive or to issue.
    fn change(&mut self, kind: u8, item: u32, quantity: u32) -> Answer {
        let on = self.on_hand(item);
        if on == NO_CARD {
            return Answer::NoCard;
        }
        let is_received = kind == b'R';
        if is_received && on.saturating_add(quantity) > MOST {
            return Answer::Over(on);
        }
        if !is_received && quantity > on {
            return Answer::Short(on);
        }
        let now = if is_received {
            on.saturating_add(quantity)
        } else {
            on.saturating_sub(quantity)
        };
        self.put(item, now);
        Answer::Done(now)
    }

    /// The answer to a request to move.
    fn move_to(&mut self, item: u32, quantity: u32, to: u32) -> Answer {
        let (on, there) = (self.on_hand(item), self.on_hand(to));
        if on == NO_CARD || there == NO_CARD {
            return Answer::NoCard;
        }
        if quantity > on {
            return Answer::Short(on);
        }
        let sum = there.saturating_add(quantity);
        if sum > MOST {
            return Answer::Over(there);
        }
        self.put(item, on.saturating_sub(quantity));
        self.put(to, sum);
        Answer::Moved(on.saturating_sub(quantity), sum)
    }

    /// The answer of the trade rule.
    fn trade(&mut self, request: &Request) -> Answer {
        match request.kind {
            b'S' => self.set(request.item, request.quantity),
            b'M' => self.move_to(request.item, request.quantity, request.to),
            kind => self.change(kind, request.item, request.quantity),
        }
    }

    /// Keeps a request with its answer.
    fn keep(&mut self, kept: Kept) {
        let till = (kept.request.till as usize).wrapping_sub(1);
        if let Some(book) = self.books.get_mut(till) {
            book.prior = book.last;
            book.last = kept;
        }
    }

    /// What is replied to a request, which is kept if it is its till's next one.
    pub fn reply(&mut self, request: &Request) -> Reply {
        if request.till > self.tills {
            return Reply::NoTill;
        }
        let till = self.till(request.till);
        let last = till.last.request.number;
        if request.number == last.saturating_add(1) {
            let answer = self.trade(request);
            self.keep(Kept {
                request: *request,
                answer,
            });
            return Reply::Answered(answer);
        }
        if request.number > last {
            return Reply::Ahead;
        }
        let is_prior = request.number.saturating_add(1) == last;
        if request.number != last && (!is_prior || till.prior.request.number == 0) {
            return Reply::Stale;
        }
        let kept = if is_prior { till.prior } else { till.last };
        if kept.request == *request {
            Reply::Answered(kept.answer)
        } else {
            Reply::Clash
        }
    }
}
