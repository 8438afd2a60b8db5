//! A shop served over a log in memory. The replies follow docs/MESSAGES.md by hand.
use crate::comparing::{same, same_at};
use crate::disks::blank;
use crate::logged::logs::begun;
use crate::logged::talks::{Heard, Talk};
use d64_image::MemDisk;
use host_session::{PrintedReplies, Session};
use image_log::{Log, MemLog, salvage};
use line_server::{Room, serve_batches};
use std::cell::Cell;
use std::process::Abort;

/// A line that is whole only with its second piece is in the batch of that. The last piece asks nothing new.
static DAY: &[(&[u8], usize)] = &[
    (b"1,1,S,101,40\n1,2,I", 0),
    (b",101,5\n2,1,I,101,60\n", 12),
    (b"1,2,I,101,5\nnonsense\n9,1,I,101,1\n1,3,I,101", 37),
];

const TOLD: &[u8] =
    b"1,1,DONE,40\n1,2,DONE,35\n2,1,SHORT,35\n1,2,DONE,35\n30,SYNTAX ERROR,00,00\n9,1,NO TILL\n";

/// A log that begins with the disk.
fn log_of(rt: &(impl Abort + AllocGlobal), disk: &MemDisk) -> Log<MemLog> {
    let (image, _) = disk.bytes().as_chunks::<256>();
    begun(rt, image).expect(rt, "a log")
}

/// The disk that a log's bytes stand for.
fn disk_in(rt: &(impl Abort + AllocGlobal), bytes: &[u8]) -> MemDisk {
    let mut image = vec![in rt.alloc(); [0; 256]; 683].expect(rt, "there is memory");
    let mut log = Vec::from_slice(rt.alloc(), bytes).expect(rt, "there is memory");
    if image.len() == 683 {
        let _ = salvage(&mut log, image.as_mut_slice());
    }
    MemDisk::load(rt.alloc(), image.as_slice().as_flattened()).expect(rt, "an image")
}

/// How many of item 101 a disk has on hand.
fn on_hand(disk: MemDisk) -> Option<u32> {
    match Session::open(disk) {
        Ok(session) => {
            let card = session.card(101).unwrap_or(None);
            let _ = session.close();
            card
        }
        Err(_) => None,
    }
}

/// Each batch is committed by one write and one sync, and its replies reported before the next piece is read. The last
/// batch needs neither.
#[test]
fn a_day_is_three_batches(rt: HostRuntime) {
    let disk = blank(&rt, 4);
    let mut log = log_of(&rt, &disk);
    let before = log.file().calls();
    let handed = Cell::new(0);
    let mut input = Talk::new(DAY, &handed);
    let mut out = PrintedReplies::new(Heard::new(Vec::new(rt.alloc()), 1000, &handed));
    let mut room = Room::new(rt.alloc()).expect(&rt, "there is memory");
    let end = serve_batches(disk, &mut log, &mut input, &mut out, &mut room);
    let left = end.ok().expect(&rt, "served");
    let out = out.into_inner();
    same(&rt, out.bytes.as_slice(), TOLD);
    same(&rt, out.times, 3);
    same(&rt, log.file().calls(), before.wrapping_add(4));
    let found = disk_in(&rt, log.file().bytes());
    same(&rt, found.bytes() == left.bytes(), true);
    same(&rt, on_hand(found), Some(35));
}

/// The lines that one read gives are one batch, and 512 of them at most.
#[test]
fn lines_at_hand_are_one_batch(rt: HostRuntime) {
    for (count, times) in [(1usize, 1usize), (64, 1), (512, 1), (513, 2), (1100, 3)] {
        let disk = blank(&rt, 4);
        let mut log = log_of(&rt, &disk);
        let before = log.file().calls();
        let handed = Cell::new(0);
        let mut lines = Vec::new(rt.alloc());
        for _ in 0..count {
            lines
                .extend_from_slice(b"x\n")
                .expect(&rt, "there is memory");
        }
        let mut input = lines.as_slice();
        let mut out = PrintedReplies::new(Heard::new(Vec::new(rt.alloc()), 100_000, &handed));
        let mut room = Room::new(rt.alloc()).expect(&rt, "there is memory");
        let end = serve_batches(disk, &mut log, &mut input, &mut out, &mut room);
        same_at(&rt, end.is_ok(), true, count);
        let out = out.into_inner();
        same_at(&rt, out.times, times, count);
        same_at(&rt, out.bytes.len(), count.wrapping_mul(22), count);
        same_at(&rt, log.file().calls(), before, count);
    }
}
