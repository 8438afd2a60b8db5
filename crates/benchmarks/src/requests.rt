//! Tills that ask a shop on a disk in turns, and lose the first reply to each request: so every second message is a
//! repeat.
ghost use Rattle.std.specs.Prelude.{◌≡◌, IfOk, length};
ghost use Rattle.host_session.specs.session.Opening.{IsAShop};
ghost use Rattle.benchmarks.specs.Asked.{StaysOpen};

use d64_image::Sectors;
use host_session::{OpenFault, Session};
use request_cards::{Answer, Kind, Reply, Till, Wish, Word};
use std::alloc::{AllocError, Global};

/// How many tills ask.
pub const TILLS: u8 = 64;

/// What a till wishes in this round, spread over the items and kinds; None if it would move an item to itself.
fn wish_of(round: u64) -> Option<Wish> {
    let mix = (round.wrapping_add(1).wrapping_mul(0x9E37_79B9_7F4A_7C15) >> 32) as u32;
    let most = if mix & 8 == 0 { 300 } else { 8819 };
    let item = (mix / 16 % most) as u16 + 1;
    let quantity = mix / 128 % 1000;
    let to = (mix / 1024 % 300) as u16 + 1;
    match mix & 7 {
        0 | 1 | 2 => Wish::new(Kind::Set, item, quantity, None),
        3 | 4 => Wish::new(Kind::Receive, item, quantity, None),
        5 | 6 => Wish::new(Kind::Issue, item, quantity, None),
        _ => Wish::new(Kind::Move, item, quantity, Some(to)),
    }
}

/// A number for the reply to a till.
fn reply_number(reply: &Reply) -> u64 {
    let Reply::Told { word, .. } = *reply else {
        return 1;
    };
    match word {
        Word::Media => 2,
        Word::NoTill => 3,
        Word::Stale => 4,
        Word::Clash => 5,
        Word::Ahead => 6,
        Word::Kept(answer) => match answer {
            Answer::NoCard => 7,
            Answer::DiskFull => 8,
            Answer::TooLarge => 9,
            Answer::Done(on_hand) => 10 + u64::from(on_hand),
            Answer::Moved(on_hand, other) => 20 + u64::from(on_hand) + 3 * u64::from(other),
            Answer::Short(on_hand) => 30 + u64::from(on_hand),
            Answer::Over(on_hand) => 40 + u64::from(on_hand),
        },
    }
}

/// Passes the message of the till's open wish to the session, if there is one. Returns the number of the reply.
fn ask<D: Sectors>(session: &mut Session<D>, till: &mut Till, is_heard: bool) -> u64
    requires shop { IsAShop (D.history.image session.old.disk) }
    ensures stays { StaysOpen D.history session.old session.new }
{
    let Some(message) = till.ask() else {
        return 0;
    };
    let reply = session.handle(message.as_slice());
    if is_heard {
        till.hear(&reply);
    }
    reply_number(&reply)
}

/// So many messages of the tills, by turns, each request twice, since the first reply to it is lost. Sums up the
/// numbers of the replies, each sum 31 times the one before and the number, without what is above 64 bits.
fn ask_by_turns<D: Sectors>(session: &mut Session<D>, tills: &mut [Till], rounds: u64) -> u64
    requires shop { IsAShop (D.history.image session.old.disk) }
    requires tills { length tills.old ≡ 64 }
    ensures stays { StaysOpen D.history session.old session.new }
{
    let mut sum = 0u64;
    for round in 0..rounds {
        let till = &mut tills[(round % 64) as usize];
        let is_first = round / 64 % 2 == 0;
        if is_first && let Some(wish) = wish_of(round) {
            till.wish(wish);
        }
        sum = sum
            .wrapping_mul(31)
            .wrapping_add(ask(session, till, !is_first));
    }
    sum
}

/// Opens a shop's disk, and hands it so many messages of the tills: the sum of the replies, and the disk.
pub fn run<D: Sectors>(disk: D, tills: &mut [Till], rounds: u64) -> Result<(u64, D), (OpenFault, D)>
    requires tills { length tills.old ≡ 64 }
    ensures shop { IfOk result (λ told. IsAShop (D.history.image told.1)) }
{
    let mut session = Session::open(disk)?;
    let sum = ask_by_turns(&mut session, tills, rounds);
    Ok((sum, session.close()))
}

/// Opens a shop's disk so many times, and closes it again.
pub fn reopen<D: Sectors>(disk: D, rounds: u64) -> Result<D, (OpenFault, D)>
    ensures shop { IsAShop (D.history.image disk) → IfOk result (λ closed. IsAShop (D.history.image closed)) }
{
    let mut disk = disk;
    for _round in 0..rounds {
        disk = Session::open(disk)?.close();
    }
    Ok(disk)
}

/// The 64 tills, none of which has asked yet.
pub fn all_tills(alloc: Global) -> Result<Vec<Till>, AllocError>
    ensures { IfOk result (λ tills. length tills.items ≡ 64) }
{
    let mut tills = Vec::new(alloc);
    for below in 0..TILLS {
        tills.push(Till::new(below + 1, 0))?;
    }
    Ok(tills)
}
