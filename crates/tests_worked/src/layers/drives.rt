//! The drives of the rows, the disks that lie in them, and the calls that are made, each with what it comes to.
use crate::comparing::{same, same_at};
use crate::layers::disks::{at, change, fresh};
use arrayvec::ArrayVec;
use d64_image::{MemDisk, Meter, Sectors};
use drive_channels::{Dead, Drive};
use layout_check::repair;
use std::process::Abort;

/// A call, with what it is handed; of a read, what it gives.
#[derive(Clone, Copy)]
pub(crate) enum Call<'a> {
    Open(u8, &'a [u8]),
    Close(u8),
    Command(&'a [u8]),
    Write(u8, &'a [u8]),
    Read(u8, &'a [u8]),
}

/// A drive over this disk that was just switched on, its reads and writes counted.
pub(crate) fn counted(disk: MemDisk) -> Drive<Meter<MemDisk>> {
    Drive::power_on(Meter::new(disk))
}

/// The number of the drive's status.
pub(crate) fn number<D: Sectors>(drive: &mut Drive<D>) -> Result<u8, Dead> {
    Ok(drive.status()?.number())
}

/// Reads, and compares what that gives.
fn read(
    rt: &impl Abort,
    drive: &mut Drive<Meter<MemDisk>>,
    ch: u8,
    given: &[u8],
    row: usize,
) -> Result<(), Dead> {
    let mut to = ArrayVec::new();
    let answer = drive.read(ch, &mut to);
    same_at(rt, to.as_slice(), given, ("given", row));
    answer
}

/// Does a call, and compares what a read gives.
fn answer(
    rt: &impl Abort,
    drive: &mut Drive<Meter<MemDisk>>,
    call: Call<'_>,
    row: usize,
) -> Result<(), Dead> {
    match call {
        Call::Open(ch, text) => drive.open(ch, text),
        Call::Close(ch) => drive.close(ch),
        Call::Command(text) => drive.command(text),
        Call::Write(ch, text) => drive.write(ch, text),
        Call::Read(ch, given) => read(rt, drive, ch, given, row),
    }
}

/// Does the calls one after another, and compares each one's status, and what a read gives, with the ones in the table.
pub(crate) fn rows(rt: &impl Abort, drive: &mut Drive<Meter<MemDisk>>, calls: &[(Call<'_>, u8)]) {
    for (i, (call, want)) in calls.iter().enumerate() {
        let answer = answer(rt, drive, *call, i);
        same_at(rt, answer, Ok(()), ("row", i));
        same_at(rt, number(drive), Ok(*want), ("row", i));
    }
}

/// Does the calls, and compares how many sectors the drive has written then. Its disk comes back.
pub(crate) fn session(
    rt: &impl Abort,
    drive: Drive<Meter<MemDisk>>,
    calls: &[(Call<'_>, u8)],
    writes: u64,
) -> MemDisk {
    let mut drive = drive;
    rows(rt, &mut drive, calls);
    let disk = drive.into_disk();
    same(rt, disk.writes(), writes);
    disk.into_inner()
}

/// A fresh disk, but the block count of STOCK is wrong.
pub(crate) fn wrong_count(rt: &(impl Abort + AllocGlobal)) -> MemDisk {
    let mut disk = fresh(rt);
    change(&mut disk, at(18, 1), (30, 3), (31, 0));
    disk
}

/// A fresh disk, but the chain of STOCK leaves the disk.
pub(crate) fn broken_chain(rt: &(impl Abort + AllocGlobal)) -> MemDisk {
    let mut disk = fresh(rt);
    change(&mut disk, at(17, 0), (0, 0x24), (0, 0x24));
    disk
}

/// A fresh disk, but STOCK is a program.
pub(crate) fn program(rt: &(impl Abort + AllocGlobal)) -> MemDisk {
    let mut disk = fresh(rt);
    change(&mut disk, at(18, 1), (2, 0x82), (2, 0x82));
    let _ = repair(&mut disk);
    disk
}

/// A fresh disk, but no block is free: record 9256 of STOCK takes each.
pub(crate) fn full(rt: &(impl Abort + AllocGlobal)) -> MemDisk {
    let mut drive = Drive::power_on(fresh(rt));
    let _ = drive.open(2, b"STOCK");
    let _ = drive.command(b"P\x62\x28\x24");
    let _ = drive.write(2, b"");
    drive.into_disk()
}
