//! Requests and what is replied.

/// A request of a till. `to` is 0 unless it is a move.
#[derive(Clone, Copy, PartialEq, Eq)]
pub struct Request {
    /// The till.
    pub till: u32,
    /// The till's count of its requests, from 1 on. 0: there is none.
    pub number: u32,
    /// `R`, `I`, `S` or `M`.
    pub kind: u8,
    /// The item.
    pub item: u32,
    /// How many.
    pub quantity: u32,
    /// The item that a move goes to.
    pub to: u32,
}

impl Request {
    /// No request.
    pub const NONE: Request = Request {
        till: 0,
        number: 0,
        kind: b'S',
        item: 1,
        quantity: 0,
        to: 0,
    };
}

/// The answer to a request, which is kept.
#[derive(Clone, Copy, PartialEq, Eq)]
pub enum Answer {
    /// It is done, and so many are on hand.
    Done(u32),
    /// It is done, and so many are on hand there and here.
    Moved(u32, u32),
    /// There are only so many.
    Short(u32),
    /// There would be too many; there are so many.
    Over(u32),
    /// An item has no card.
    NoCard,
    /// The disk has no room for the item's card.
    DiskFull,
    /// No disk has room for it.
    TooLarge,
}

/// What is replied to a message.
#[derive(Clone, Copy, PartialEq, Eq)]
pub enum Reply {
    /// It is no request.
    Syntax,
    /// The disk hasn't the till.
    NoTill,
    /// Another request has the number.
    Clash,
    /// The number is that of an older one.
    Stale,
    /// The number is too high.
    Ahead,
    /// The kept answer.
    Answered(Answer),
}
