//! The standing of a request: either its till gets a reply without the trade rule, or the request is new.

ghost use Rattle.std.specs.Prelude.{◌≡◌, ◌==◌, ◌+◌, ◌&&◌, nat_le, option_map};
ghost use Rattle.request_cards.specs.Ledgers.{entry_of, is_new, number_of, standing, standing_at};
ghost use Rattle.request_cards.specs.Ledgers.{told_again, told_late};
ghost use Rattle.request_cards.specs.Requests.{same_body as is_same_body};

use crate::answer::Answer;
use crate::reply::Word;
use crate::request::Request;

/// The standing of a request, by what is kept of its till.
#[derive(Clone, Copy)]
pub enum Standing {
    /// It is its till's next one: the trade rule answers it, and the answer is kept.
    New,
    /// Its till gets this word, and nothing changes.
    Settled(Word),
}

/// Whether two requests want the same: kind, item, quantity and, for moves, the item to go to.
#[inline]
pub fn same_body(a: &Request, b: &Request) -> bool
    ensures { result ≡ is_same_body a.now.body b.now.body }
{
    a.kind() == b.kind() && a.item() == b.item() && a.quantity() == b.quantity() && a.to() == b.to()
}

/// The word on a request that has the number of a kept one.
#[inline]
fn again(kept: (Request, Answer), request: &Request) -> Word
    ensures { result ≡ told_again (entry_of kept) request.now }
{
    if same_body(request, &kept.0) {
        Word::Kept(kept.1)
    } else {
        Word::Clash
    }
}

/// The word on a request with a number below the till's last one, given the request before the last.
#[inline]
fn late(prior: Option<(Request, Answer)>, request: &Request) -> Word
    ensures { result ≡ told_late (option_map entry_of prior) request.now }
{
    match prior {
        Some(kept) if request.number() == kept.0.number() => again(kept, request),
        _ => Word::Stale,
    }
}

/// The standing of a request on a disk with this many tills. It depends on the last request of its till and the one
/// before, each with its answer (None if there is none). The first matching case applies:
///
/// - A till past `tills` gets `NO TILL`.
/// - If the number is that of the last request or the one before, and the wish is the same, it gets the kept answer; if
///   the wishes differ, `CLASH`.
/// - Any other number below the last gets `STALE`.
/// - The number one past the last, or 1 if nothing is kept, is new.
/// - Any greater number gets `AHEAD`.
#[inline]
pub fn standing_of(
    tills: u8,
    last: Option<(Request, Answer)>,
    prior: Option<(Request, Answer)>,
    request: &Request,
) -> Standing
    ensures exact { result
        ≡ standing tills (option_map entry_of last) (option_map entry_of prior) request.now }
    // New is the next number of a till that is there, and no other.
    ensures new { is_new result ≡ (nat_le request.now.till tills
        && request.now.number == number_of (option_map entry_of last) + 1) }
{
    let number = request.number();
    if request.till() > tills {
        return Standing::Settled(Word::NoTill);
    }
    match last {
        None => {
            if number > 1 {
                Standing::Settled(Word::Ahead)
            } else {
                Standing::New
            }
        }
        Some(kept) => {
            let newest = kept.0.number();
            if number < newest {
                Standing::Settled(late(prior, request))
            } else if number == newest {
                Standing::Settled(again(kept, request))
            } else if number > newest + 1 {
                Standing::Settled(Word::Ahead)
            } else {
                Standing::New
            }
        }
    }
}
