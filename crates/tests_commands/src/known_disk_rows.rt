//! Days on files of which it is known what they hold: played whole, and with a call that fails.
use crate::images::formatted;
use host_session::PrintedReplies;
use shop_commands::show_image;
use std::process::Abort;
use test_files::{DiskFile, IMAGE_BYTES, WholeFile, play_in_file};

const SCRIPT: &[u8] = b"1,1,S,42,120\n1,2,I,42,20\n";

/// What is shown of the shop before the lines and after each.
pub(crate) static SHOPS: [&[u8]; 3] = [
    b"TOP 9256\n",
    b"TOP 9256\nCARD 42,120\nTILL 1,1,S,42,120,DONE,120\n",
    b"TOP 9256\nCARD 42,100\nTILL 1,2,I,42,20,DONE,100\nPRIOR 1,1,S,42,120,DONE,120\n",
];

/// The image of a fresh shop.
pub(crate) fn fresh(rt: &(impl AllocGlobal + Abort)) -> Vec<u8> {
    formatted(rt)
}

/// Which shop an image has.
fn shop_of(rt: &(impl AllocGlobal + Abort), image: &[u8]) -> Option<usize> {
    let mut shown = Vec::new(rt.alloc());
    let _ = show_image(rt.alloc(), image, &mut shown);
    for (number, shop) in SHOPS.iter().enumerate() {
        if *shop == shown.as_slice() {
            return Some(number);
        }
    }
    None
}

/// Plays the script in a file that is synced only at the end, and of which so many calls pass. Returns the shop that it
/// holds then, the one on its disk, and whether that ended well.
fn shops_in_file(
    rt: &(impl AllocGlobal + Abort),
    calls: u64,
) -> (Option<usize>, Option<usize>, bool) {
    let image = fresh(rt);
    if image.len() != IMAGE_BYTES {
        panic!(rt; "no image");
    }
    let file = DiskFile::new(rt.alloc(), image.as_slice());
    let file = WholeFile::new(file.expect(rt, "a file").failing(calls, 0, false));
    let mut out = PrintedReplies::new(Vec::new(rt.alloc()));
    let (file, ended) = play_in_file(rt.alloc(), image.as_slice(), SCRIPT, file, &mut out);
    let file = file.into_inner();
    let there = shop_of(rt, file.disk().bytes());
    (shop_of(rt, file.held()), there, ended == Ok(None))
}

#[test]
fn a_file_that_is_synced_at_the_end_holds_a_beginning(rt: HostRuntime) {
    let mut before = (0, 0, false);
    for calls in 0..60u64 {
        let (held, there, done) = shops_in_file(&rt, calls);
        let now = (held.unwrap_or(0), there.unwrap_or(0), done);
        let is_brought = now.1 == if done { 2 } else { 0 };
        assert!(&rt; now >= before && is_brought, "{calls}: {now:?}");
        before = now;
        if done {
            break;
        }
    }
    assert!(&rt; before == (2, 2, true), "{before:?}");
}
