//! Each row of the drive's table by itself: what stands before the call, the call, its
//! status, and the sectors it writes.
use crate::layers::disks::fresh;
use crate::layers::drives::{
    Call, broken_chain, counted, full, program, rows, session, wrong_count,
};
use d64_image::{MemDisk, Meter};
use drive_channels::Drive;
use std::process::Abort;

/// What stands before a call.
#[derive(Clone, Copy)]
enum State {
    /// The drive was just switched on, with a fresh disk: `STOCK` has 14 records of 18 bytes, `REQUESTS` two of 127.
    Fresh,
    /// A fresh disk, but the block count of `STOCK` is wrong.
    WrongCount,
    /// A fresh disk, but the chain of `STOCK` leaves the disk.
    BrokenChain,
    /// So, but `STOCK` is a program.
    Program,
    /// So, but no block is free.
    Full,
    /// Channel 2 is open on `STOCK` of the fresh disk, at record 1.
    Open,
    /// So, at record 15, which isn't there yet.
    Behind,
    /// So, at record 10160, for which the disk has no room.
    NoRoom,
}

/// The disk of a state.
fn disk_of(rt: &(impl Abort + AllocGlobal), state: State) -> MemDisk {
    match state {
        State::WrongCount => wrong_count(rt),
        State::BrokenChain => broken_chain(rt),
        State::Program => program(rt),
        State::Full => full(rt),
        _ => fresh(rt),
    }
}

/// Leads a drive that was just switched on to a state.
fn lead_to(rt: &impl Abort, drive: &mut Drive<Meter<MemDisk>>, state: State) {
    let open = (Call::Open(2, b"STOCK"), 0);
    match state {
        State::Open => rows(rt, drive, &[open]),
        State::Behind => rows(rt, drive, &[open, (Call::Command(b"P\x62\x0F\x00"), 50)]),
        State::NoRoom => rows(rt, drive, &[open, (Call::Command(b"P\x62\xB0\x27"), 50)]),
        _ => {}
    }
}

/// The rows, in the order of `docs/DRIVE.md`: the state, the call, its status, and the sectors it writes.
static ROWS: [(State, Call<'static>, u8, u64); 34] = [
    (State::Fresh, Call::Open(1, b"STOCK"), 70, 0),
    (State::Fresh, Call::Open(15, b"STOCK"), 70, 0),
    (State::Open, Call::Open(3, b"REQUESTS"), 70, 0),
    (State::Fresh, Call::Open(2, b"STOCK,L,\x00"), 30, 0),
    (State::WrongCount, Call::Open(2, b"STOCK"), 71, 0),
    (State::Fresh, Call::Open(2, b"NONE"), 62, 0),
    (State::Fresh, Call::Open(2, b"STOCK,L,\x0D"), 50, 0),
    (State::Program, Call::Open(2, b"STOCK,L,\x12"), 64, 0),
    (State::Program, Call::Open(2, b"STOCK"), 62, 0),
    (State::Full, Call::Open(2, b"NEW,L,\x50"), 72, 0),
    (State::Fresh, Call::Open(2, b"NEW,L,\x50"), 0, 4),
    (State::Fresh, Call::Open(2, b"STOCK"), 0, 0),
    (State::Fresh, Call::Open(14, b"STOCK,L,\x12"), 0, 0),
    (State::Open, Call::Close(2), 0, 0),
    (State::Fresh, Call::Close(9), 0, 0),
    (State::Fresh, Call::Command(b""), 30, 0),
    (State::WrongCount, Call::Command(b"V"), 0, 1),
    (State::BrokenChain, Call::Command(b"V0"), 71, 0),
    (State::Fresh, Call::Command(b"I"), 0, 0),
    (State::Open, Call::Command(b"P\x62\x0F"), 30, 0),
    (State::Open, Call::Command(b"P\x65\x01\x00\x01"), 70, 0),
    (State::Open, Call::Command(b"P\x62\x0F\x00\x13"), 51, 0),
    (State::Open, Call::Command(b"P\x62\xB1\x27"), 52, 0),
    (State::Open, Call::Command(b"P\x62\x0F\x00\x01"), 50, 0),
    (State::Open, Call::Command(b"P\x62\x0E\x00\x12"), 0, 0),
    (State::Fresh, Call::Command(b"U1"), 31, 0),
    (State::Open, Call::Write(3, b"A"), 61, 0),
    (State::NoRoom, Call::Write(2, b"A"), 52, 0),
    (State::Behind, Call::Write(2, b""), 0, 5),
    (State::Behind, Call::Write(2, b"ABCDEFGHIJKLMNOPQRS"), 51, 7),
    (State::Open, Call::Write(2, b"ABCDEFGHIJKLMNOPQR"), 0, 1),
    (State::Open, Call::Read(3, b""), 61, 0),
    (State::Behind, Call::Read(2, b""), 50, 0),
    (State::Open, Call::Read(2, b"\xFF"), 0, 0),
];

#[test]
fn each_row_of_the_table(rt: HostRuntime) {
    for &(state, call, status, writes) in &ROWS {
        let mut drive = counted(disk_of(&rt, state));
        lead_to(&rt, &mut drive, state);
        session(&rt, drive, &[(call, status)], writes);
    }
}
