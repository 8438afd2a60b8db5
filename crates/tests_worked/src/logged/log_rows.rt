//! The bytes of a log, and what it stands for, as `tests/power/log_model.py` has worked them out.
use crate::comparing::{same, same_at};
use crate::logged::logs::{
    began_with, begun, change, commit, head, numbered, stands_for, sum, two_touched, without,
};

/// Sums of the image that the log began with, and of the one after the commit.
static BEFORE: [u8; 4] = [0xe2, 0x02, 0xe0, 0x01];

static AFTER: [u8; 4] = [0x80, 0xd3, 0x13, 0xae];

/// At which byte the commit's block at 188,416 is damaged: in its count, its digest, its kind, how many sectors it has,
/// its place, an index, and the sectors' bytes.
static LOST: [usize; 11] = [
    188_416, 188_417, 188_418, 188_425, 188_426, 188_427, 188_428, 188_432, 188_435, 188_480,
    188_991,
];

/// 46 blocks, and zeros after them.
#[test]
fn a_log_begins_with_its_base(rt: HostRuntime) {
    let image = numbered(&rt);
    let log = begun(&rt, image.as_slice()).expect(&rt, "a log");
    let bytes = log.file().bytes();
    same(&rt, bytes.len(), 4_198_400);
    same(&rt, sum(bytes, 0, 188_416), [0x93, 0x54, 0xb8, 0xe4]);
    same(
        &rt,
        sum(bytes, 188_416, 4_009_984),
        [0x5a, 0x70, 0x49, 0x5d],
    );
    let first = [
        230, 1, 237, 55, 20, 232, 142, 55, 19, 95, 1, 15, 0, 0, 0, 0, 0, 0, 1, 0,
    ];
    same(&rt, head(bytes, 0), first);
    let last = [
        227, 7, 18, 12, 12, 248, 245, 208, 2, 8, 2, 8, 45, 0, 0, 0, 163, 2, 164, 2,
    ];
    same(&rt, head(bytes, 184_320), last);
    same(&rt, stands_for(&rt, bytes), (true, BEFORE));
}

/// A commit of two sectors is one block, by one write and one sync; without a touched sector it is neither.
#[test]
fn a_commit_is_one_block(rt: HostRuntime) {
    let mut image = numbered(&rt);
    let mut log = begun(&rt, image.as_slice()).expect(&rt, "a log");
    let before = log.file().calls();
    same(&rt, commit(&mut log, image.as_slice(), &[false; 683]), true);
    same(&rt, log.file().calls(), before);
    change(image.as_mut_slice());
    same(
        &rt,
        commit(&mut log, image.as_slice(), &two_touched()),
        true,
    );
    same(&rt, log.file().calls(), before.wrapping_add(2));
    let bytes = log.file().bytes();
    let block = [
        239, 14, 218, 88, 150, 119, 200, 162, 132, 93, 2, 2, 46, 0, 0, 0, 101, 1, 170, 2,
    ];
    same(&rt, head(bytes, 188_416), block);
    same(&rt, sum(bytes, 188_416, 4096), [0xe2, 0xaa, 0x86, 0x20]);
    same(
        &rt,
        sum(bytes, 192_512, 4_005_888),
        [0x5f, 0xb9, 0x6f, 0xa0],
    );
    same(&rt, stands_for(&rt, bytes), (true, AFTER));
    same(&rt, began_with(&rt, bytes), (true, BEFORE));
}

/// One byte of the commit's block is lost.
#[test]
fn a_torn_commit_does_not_count(rt: HostRuntime) {
    let mut image = numbered(&rt);
    let mut log = begun(&rt, image.as_slice()).expect(&rt, "a log");
    change(image.as_mut_slice());
    same(
        &rt,
        commit(&mut log, image.as_slice(), &two_touched()),
        true,
    );
    for &at in &LOST {
        let torn = without(&rt, log.file().bytes(), at);
        same_at(&rt, stands_for(&rt, torn.as_slice()), (true, BEFORE), at);
    }
}

/// The mark is the first byte after the blocks. It leaves the image, and closes the log.
#[test]
fn a_mark_closes_the_log(rt: HostRuntime) {
    let image = numbered(&rt);
    let mut log = begun(&rt, image.as_slice()).expect(&rt, "a log");
    same(&rt, log.file().bytes().get(4_194_304).copied(), Some(0));
    same(&rt, log.mark().is_ok(), true);
    let bytes = log.file().bytes();
    same(&rt, bytes.get(4_194_304).copied(), Some(1));
    same(&rt, stands_for(&rt, bytes), (true, BEFORE));
    same(&rt, commit(&mut log, image.as_slice(), &[true; 683]), false);
}
