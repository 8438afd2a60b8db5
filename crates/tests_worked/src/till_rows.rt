//! A till and a session: messages that are lost, repeated and late.
use crate::comparing::{holds, same};
use crate::disks::{clean, fresh};
use arrayvec::ArrayVec;
use d64_image::MemDisk;
use host_session::Session;
use request_cards::{Answer, Kind, Reply, Till, Wish};
use std::process::Abort;

/// The session on a disk that is opened.
fn open(rt: &impl Abort, disk: MemDisk) -> Session<MemDisk> {
    match Session::open(disk) {
        Ok(session) => session,
        Err((fault, _)) => panic!(rt; "the disk isn't opened: {fault:?}"),
    }
}

/// Whether a reply has this text.
fn says(reply: Reply, text: &[u8]) -> bool {
    reply.print().as_slice() == text
}

/// Opens a wish of item 42.
fn wish(rt: &impl Abort, till: &mut Till, kind: Kind, quantity: u32) -> bool {
    till.wish(Wish::new(kind, 42, quantity, None).expect(rt, "the wish is in the grammar"))
}

/// What the till asks.
fn ask(rt: &impl Abort, till: &Till) -> ArrayVec<u8, 36> {
    till.ask().expect(rt, "a wish is open")
}

/// Sends what the till asks.
fn send(rt: &impl Abort, session: &mut Session<MemDisk>, till: &Till) -> Reply {
    session.handle(ask(rt, till).as_slice())
}

/// Whether a till whose last number is taken opens no wish.
fn is_used_up(rt: &impl Abort) -> bool {
    !wish(rt, &mut Till::new(1, 999_999_999), Kind::Set, 1)
}

// The first reply is lost, the second heard; what comes late or again is not.
#[test]
fn a_till_hears_each_answer_once(rt: HostRuntime) {
    let mut session = open(&rt, fresh(&rt));
    let mut till = Till::new(1, 0);
    same(&rt, wish(&rt, &mut till, Kind::Set, 120), true);
    let first = ask(&rt, &till);
    let one = session.handle(first.as_slice());
    let two = send(&rt, &mut session, &till);
    let heard = [till.hear(&two), till.hear(&one)];
    same(&rt, heard, [Some(Answer::Done(120)), None]);
    same(&rt, wish(&rt, &mut till, Kind::Receive, 5), true);
    let late = session.handle(first.as_slice());
    holds(&rt, says(late, b"1,1,DONE,120"), late);
    same(&rt, till.hear(&late), None);
    let three = send(&rt, &mut session, &till);
    holds(&rt, says(three, b"1,2,DONE,125"), three);
    let again = session.handle(first.as_slice());
    let heard = [till.hear(&three), till.hear(&again)];
    same(&rt, heard, [Some(Answer::Done(125)), None]);
    clean(&rt, &mut session.close());
    same(&rt, is_used_up(&rt), true);
}
