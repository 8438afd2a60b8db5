//! Lines that tills send.
use crate::answers::Request;
use crate::shops::Shop;
use simulated_machine::Random;

/// A line that is sent.
#[derive(Clone, Copy)]
pub enum Line {
    /// A request.
    Asks(Request),
    /// A text that is none.
    IsBad(&'static str),
}

static BAD: [&str; 8] = [
    "",
    "hello",
    "1,1,X,1,1",
    "1,01,S,1,1",
    "65,1,S,1,1",
    "1,1,M,7,1,7",
    "1,1,S,1,1,2",
    "1,1,S,65536,1",
];

static KINDS: [u8; 8] = *b"RISMSISR";

/// A number below this one.
fn draw_number(random: &mut Random, limit: u32) -> u32 {
    random.below(u64::from(limit)) as u32
}

/// An item: most have a card or may get one.
fn draw_item(random: &mut Random) -> u32 {
    match random.below(40) {
        0 => random.below(50).saturating_add(10_101) as u32,
        1 => random.below(50_000).saturating_add(10_161) as u32,
        2 | 3 => random.below(400).saturating_add(1) as u32,
        _ => random.below(40).saturating_add(1) as u32,
    }
}

/// A quantity.
fn draw_quantity(random: &mut Random) -> u32 {
    if random.once_in(20) {
        return 999_999_999u32.saturating_sub(random.below(3) as u32);
    }
    random.below(50) as u32
}

/// A request of this number.
fn draw_request(random: &mut Random, till: u32, number: u32) -> Request {
    let drawn = random.index(KINDS.len());
    let kind = KINDS.get(drawn).copied().unwrap_or(b'S');
    let item = draw_item(random);
    let quantity = draw_quantity(random);
    let other = draw_item(random);
    let to = match (kind, other == item) {
        (b'M', false) => other,
        (b'M', true) => other.saturating_add(1),
        _ => 0,
    };
    Request {
        till,
        number,
        kind,
        item,
        quantity,
        to,
    }
}

/// A number that isn't the next one, or that is another request's.
fn draw_odd_number(random: &mut Random, last: u32) -> u32 {
    match random.below(4) {
        0 => last,
        1 => last.saturating_sub(1),
        2 => last.saturating_add(2),
        _ => draw_number(random, last.saturating_add(5)),
    }
    .max(1)
}

/// A line for a shop that is so: most are a till's next request; some are sent again, have another number, or are none.
pub fn draw_line(random: &mut Random, shop: &Shop) -> Line {
    let till = draw_number(random, shop.tills().saturating_add(1)).saturating_add(1);
    let till = if random.once_in(8) {
        till
    } else {
        till.min(shop.tills())
    };
    let (last, prior) = (shop.last_of(till), shop.prior_of(till));
    match random.below(20) {
        0 => Line::IsBad(BAD.get(random.index(BAD.len())).copied().unwrap_or("")),
        1 => {
            let number = draw_odd_number(random, last.number);
            Line::Asks(draw_request(random, till, number))
        }
        2 | 3 if last.number > 0 => Line::Asks(last),
        4 if prior.number > 0 => Line::Asks(prior),
        _ => Line::Asks(draw_request(random, till, last.number.saturating_add(1))),
    }
}
