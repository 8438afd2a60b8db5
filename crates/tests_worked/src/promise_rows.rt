//! Power that goes after each number of writes that a first set can take, on a disk in memory, and then in openings. The
//! expected replies come from the trade rule, by hand.
use crate::comparing::{holds, same_at};
use crate::disks::fresh;
use d64_image::{Fuse, MemDisk, Meter, Sectors};
use host_session::{Event, play};
use request_cards::Reply;
use shop_life::{handle_a_message, open_a_disk};
use std::process::Abort;

/// A first set.
const SET: [Event<'static>; 1] = [Event {
    message: b"1,1,S,15,7",
    cut: None,
}];

/// Opens the disk, and takes it back if power goes, after so many sector writes.
fn opened_until<D: Sectors>(disk: D, power: u32) -> D {
    match open_a_disk(Fuse::new(disk, power)) {
        Ok(session) => session.close().into_inner(),
        Err((_, fuse)) => fuse.into_inner(),
    }
}

/// The reply to the message that is sent again, how many of its item the shop then has, and how many sectors were written
/// in all, if power goes after so many writes of the first time and then in these openings.
fn asked_again(
    rt: &(impl Abort + AllocGlobal),
    power: u32,
    recoveries: &[u32],
) -> (Reply, Option<u32>, u64) {
    let mut replies: Vec<Reply> = Vec::new(rt.alloc());
    let mut disk = match play(Fuse::new(Meter::new(fresh(rt)), power), &SET, &mut replies) {
        Ok(fuse) => fuse.into_inner(),
        Err((_, fuse)) => fuse.into_inner(),
    };
    for &power in recoveries {
        disk = opened_until(disk, power);
    }
    let Ok(mut session) = open_a_disk(disk) else {
        panic!(rt; "not opened");
    };
    let reply = handle_a_message(&mut session, b"1,1,S,15,7");
    let on_hand = session.card(15).unwrap_or(None);
    (reply, on_hand, session.close().writes())
}

#[test]
fn a_repeat_hears_the_kept_answer_wherever_power_goes(rt: HostRuntime) {
    for power in 0..12 {
        let (reply, on_hand, _) = asked_again(&rt, power, &[1, 0, 2]);
        same_at(
            &rt,
            reply.print().as_slice(),
            b"1,1,DONE,7".as_slice(),
            power,
        );
        same_at(&rt, on_hand, Some(7), power);
    }
}

/// How many sectors are written in all, if power goes after each number of a first set's writes, and then in these
/// openings.
fn written(rt: &(impl Abort + AllocGlobal), recoveries: &[u32]) -> u64 {
    let mut all: u64 = 0;
    for power in 0..12 {
        let (_, _, writes) = asked_again(rt, power, recoveries);
        all = all.wrapping_add(writes);
    }
    all
}

#[test]
fn each_listed_opening_is_made(rt: HostRuntime) {
    let without = written(&rt, &[]);
    // what it wrote before power went is written once more
    holds(&rt, written(&rt, &[1]) > without, "one more opening");
}

/// Opens the disk, and sends it a message in which power goes after so many sector writes.
fn cut_in<D: Sectors>(disk: D, message: &[u8], power: u32) -> D {
    match open_a_disk(Fuse::new(disk, power)) {
        Ok(mut session) => {
            let _ = handle_a_message(&mut session, message);
            session.close().into_inner()
        }
        Err((_, fuse)) => fuse.into_inner(),
    }
}

/// Opens the disk, and has a message answered.
fn answered(rt: &(impl Abort + AllocGlobal), disk: MemDisk, message: &[u8]) -> (Reply, MemDisk) {
    let Ok(mut session) = open_a_disk(disk) else {
        panic!(rt; "not opened");
    };
    let reply = handle_a_message(&mut session, message);
    (reply, session.close())
}

#[test]
fn the_worked_life_is_lived(rt: HostRuntime) {
    let (first, disk) = answered(&rt, fresh(&rt), b"1,1,S,15,7");
    same_at(&rt, first.print().as_slice(), b"1,1,DONE,7".as_slice(), 1);
    // after the intent was written, and in the recovery after one card
    let disk = opened_until(cut_in(disk, b"2,1,R,15,5", 1), 1);
    let (second, disk) = answered(&rt, disk, b"2,1,R,15,5");
    same_at(&rt, second.print().as_slice(), b"2,1,DONE,12".as_slice(), 2);
    // before the first write
    let disk = cut_in(disk, b"1,2,I,15,2", 0);
    let (third, _) = answered(&rt, disk, b"1,2,I,15,2");
    same_at(&rt, third.print().as_slice(), b"1,2,DONE,10".as_slice(), 3);
}
