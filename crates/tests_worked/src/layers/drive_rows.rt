//! Worked sessions at the drive, over a fresh disk for two tills, and over such a disk with something wrong.
use crate::comparing::same;
use crate::layers::disks::fresh;
use crate::layers::drives::{Call, broken_chain, counted, number, program, session, wrong_count};
use arrayvec::ArrayVec;
use d64_image::{Fuse, MemDisk, Sectors};
use drive_channels::{Dead, Drive};
use layout_check::check;
use std::process::Abort;

/// A call, and its status.
type Row = (Call<'static>, u8);

/// The text of the drive's status.
fn text<D: Sectors>(drive: &mut Drive<D>) -> Result<&'static str, Dead> {
    Ok(drive.status()?.text())
}

/// A text of 19 letters is cut; records up to 10160 fit a file of 720 blocks of 18 bytes each; a file is made.
static SESSION: [Row; 25] = [
    (Call::Open(2, b"STOCK"), 0),
    (Call::Command(b"P\x62\x0F\x00\x01"), 50),
    (Call::Write(2, b"ABCDEFGHIJKLMNOPQRS"), 51),
    (Call::Read(2, b"\xFF"), 0),
    (Call::Open(3, b"REQUESTS"), 70),
    (Call::Command(b"P\x62\x0F\x00\x13"), 51),
    (Call::Command(b"P\x62\xB1\x27"), 52),
    // none of the three above has moved the place
    (Call::Read(2, b"\xFF"), 0),
    (Call::Command(b"P\x62\xB1\x27\x01"), 52),
    (Call::Command(b"P\x62\xB0\x27\x01"), 50),
    (Call::Write(2, b"A"), 52),
    (Call::Read(2, b""), 50),
    (Call::Command(b"P\x65\x01\x00\x01"), 70),
    (Call::Write(3, b"A"), 61),
    (Call::Read(3, b""), 61),
    (Call::Command(b"P\x62\x0F\x00"), 0),
    (Call::Read(2, b"ABCDEFGHIJKLMNOPQR"), 0),
    (Call::Close(2), 0),
    (Call::Open(2, b"STOCK,L,\x0D"), 50),
    (Call::Open(2, b"NONE"), 62),
    (Call::Open(2, b"NEW,L,\x50"), 0),
    (Call::Command(b"U1"), 31),
    (Call::Command(b"V"), 0),
    (Call::Command(b"P\x62\x03\x00"), 0),
    (Call::Command(b"P\x62\x04\x00"), 50),
];

/// Does the calls over a drive that was just switched on, once its first status was read. Gives its disk.
fn switched_on(rt: &(impl Abort + AllocGlobal), calls: &[Row], writes: u64) -> MemDisk {
    let mut drive = counted(fresh(rt));
    same(rt, text(&mut drive), Ok("73,CBM DOS V2.6 1541,00,00"));
    same(rt, text(&mut drive), Ok("00, OK,00,00"));
    session(rt, drive, calls, writes)
}

// 7 for record 15 and the block before it, 4 for the new file
#[test]
fn a_session_at_the_drive(rt: HostRuntime) {
    let mut disk = switched_on(&rt, &SESSION, 11);
    let found = check(&mut disk).expect(&rt, "a clean disk");
    same(&rt, found.entries(), 3);
}

static CHANNELS: [Row; 27] = [
    (Call::Open(1, b"STOCK"), 70),
    (Call::Open(15, b"STOCK"), 70),
    (Call::Open(2, b"STOCK,L,\x00"), 30),
    (Call::Open(2, b"STOCK,L,\xFF"), 30),
    (Call::Open(2, b""), 30),
    (Call::Open(2, b"STOCK,L,"), 30),
    (Call::Open(2, b"STOCK,S"), 30),
    (Call::Open(2, b"0:STOCK"), 30),
    (Call::Open(2, b"12345678901234567"), 30),
    (Call::Close(9), 0),
    (Call::Command(b""), 30),
    (Call::Command(b"P"), 30),
    (Call::Command(b"P\x62\x0F\x00\x01\x01"), 30),
    (Call::Command(b"P\x62\x0F\x00"), 70),
    (Call::Open(2, b"STOCK"), 0),
    (Call::Command(b"P\x62\x0F\x00"), 50),
    (Call::Write(2, b""), 0),
    (Call::Read(2, b"\xFF"), 0),
    (Call::Command(b"P\x62\x0F\x00\x05"), 0),
    (Call::Read(2, b"\x00"), 0),
    (Call::Command(b"P\x62\x00\x00\x00"), 0),
    (Call::Write(2, b"A\x00B"), 0),
    (Call::Close(3), 0),
    (Call::Close(2), 0),
    (Call::Read(2, b""), 61),
    (Call::Open(14, b"STOCK,L,\x12"), 0),
    (Call::Read(14, b"A\x00B"), 0),
];

// 5 for the growth by one block, and the written record
#[test]
fn channels_texts_and_places(rt: HostRuntime) {
    session(&rt, counted(fresh(&rt)), &CHANNELS, 6);
}

static OF_A_WRONG_COUNT: [Row; 5] = [
    (Call::Open(2, b"STOCK"), 71),
    (Call::Command(b"VALIDATE"), 0),
    (Call::Open(2, b"STOCK"), 0),
    (Call::Command(b"INITIALIZE"), 0),
    (Call::Command(b"VALID"), 31),
];

static OF_A_PROGRAM: [Row; 2] = [
    (Call::Open(2, b"STOCK,L,\x0C"), 64),
    (Call::Open(2, b"STOCK"), 62),
];

static OF_A_BROKEN_CHAIN: [Row; 2] = [(Call::Command(b"V0"), 71), (Call::Open(2, b"STOCK"), 71)];

// A wrong block count, a program of the name, and a chain that leaves the disk.
#[test]
fn checks_and_repairs(rt: HostRuntime) {
    session(&rt, counted(wrong_count(&rt)), &OF_A_WRONG_COUNT, 1);
    session(&rt, counted(program(&rt)), &OF_A_PROGRAM, 0);
    session(&rt, counted(broken_chain(&rt)), &OF_A_BROKEN_CHAIN, 0);
}

/// Four calls of a drive that is dead.
fn four_calls<D: Sectors>(drive: &mut Drive<D>) -> [Result<(), Dead>; 4] {
    [
        drive.close(2),
        drive.command(b"I"),
        drive.write(2, b"A"),
        drive.read(2, &mut ArrayVec::new()),
    ]
}

#[test]
fn a_dead_drive(rt: HostRuntime) {
    let mut drive = Drive::power_on(Fuse::new(fresh(&rt), 0));
    same(&rt, number(&mut drive), Ok(73));
    same(&rt, drive.close(2), Ok(()));
    same(&rt, drive.open(2, b"STOCK"), Err(Dead));
    same(&rt, number(&mut drive), Err(Dead));
    same(&rt, four_calls(&mut drive), [Err(Dead); 4]);
    let disk = drive.into_disk().into_inner();
    same(&rt, disk.bytes() == fresh(&rt).bytes(), true);
}
