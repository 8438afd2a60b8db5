//! Rows: a shop that is served over a host in memory. The replies follow docs/MESSAGES.md by hand.
use d64_image::MemDisk;
use disk_layout::blank_image;
use host_session::Session;
use image_log::salvage;
use kept_logs::{BlockRoom, KeptLog};
use mem_host::{MemHost, Move};
use one_host::{Host, Stream};
use served_lines::{ServiceRoom, serve};
use std::process::Abort;

/// The last piece is no line. The third line is a repeat.
const DAY: &[u8] = b"1,1,S,101,40\n1,2,I,101,5\r\n1,2,I,101,5\nnonsense\n1,3,I,101";

const TOLD: &[u8] = b"1,1,DONE,40\n1,2,DONE,35\n1,2,DONE,35\n30,SYNTAX ERROR,00,00\n";

/// So many calls make a log: one makes its file, two give it a length and sync that, 41 write zeros and one syncs them, one writes the
/// base and one syncs that.
const BEGUN: usize = 47;

/// A disk with a shop.
fn shop(rt: &(impl Abort + AllocGlobal)) -> MemDisk {
    let mut disk = MemDisk::zeroed(rt.alloc()).expect(rt, "there is memory");
    blank_image(&mut disk, b"STOCK LEDGER", *b"01", 4).expect(rt, "a shop");
    disk
}

/// What was printed on standard output.
fn printed(rt: &(impl Abort + AllocGlobal), moves: &[Move]) -> Vec<u8> {
    let mut said = Vec::new(rt.alloc());
    for what in moves {
        if let Move::Printed(Stream::Output, text) = what {
            said.extend_from_slice(text.as_slice())
                .expect(rt, "there is memory");
        }
    }
    said
}

/// The bytes of the only file.
fn log_bytes(moves: &[Move]) -> &[u8] {
    let mut bytes: &[u8] = &[];
    for what in moves {
        if let Move::Changed(_, changed) = what {
            bytes = changed.as_slice();
        }
    }
    bytes
}

/// How many of item 101 the shop of a log has on hand.
fn on_hand(rt: &(impl Abort + AllocGlobal), bytes: &[u8]) -> Option<u32> {
    let mut image = vec![in rt.alloc(); [0; 256]; 683].expect(rt, "there is memory");
    let mut log = Vec::from_slice(rt.alloc(), bytes).expect(rt, "there is memory");
    if image.len() == 683 {
        let _ = salvage(&mut log, image.as_mut_slice());
    }
    let disk = MemDisk::load(rt.alloc(), image.as_slice().as_flattened()).expect(rt, "an image");
    match Session::open(disk) {
        Ok(session) => {
            let card = session.card(101).unwrap_or(None);
            let _ = session.close();
            card
        }
        Err(_) => None,
    }
}

/// Serves the day over a host where so many calls pass. Says whether the service came to its end.
fn served(rt: &(impl Abort + AllocGlobal), calls: usize) -> (MemHost, bool) {
    let disk = shop(rt);
    let input = DAY.to_vec(rt.alloc()).expect(rt, "there is memory");
    let mut host = MemHost::new(rt.alloc(), Vec::new(rt.alloc()), input, calls);
    let mut room = ServiceRoom::new(rt.alloc()).expect(rt, "there is memory");
    let blocks = BlockRoom::new(rt.alloc()).expect(rt, "there is memory");
    let (image, _) = disk.bytes().as_chunks::<256>();
    let done = match host.make("a.d64-log", 0o600) {
        Ok(file) => match KeptLog::begin(&mut host, file, blocks, image) {
            Ok(log) => serve(disk, &mut host, log, &mut room).is_ok(),
            Err(_) => false,
        },
        Err(_) => false,
    };
    (host, done)
}

#[test]
fn day_is_served(rt: HostRuntime) {
    let (host, done) = served(&rt, 1000);
    assert!(&rt; done);
    assert!(&rt; printed(&rt, host.moves()).as_slice() == TOLD);
    assert!(&rt; on_hand(&rt, log_bytes(host.moves())) == Some(35));
}

/// The service reads, writes the lines' blocks and syncs them: if the sync fails, nothing was printed.
#[test]
fn nothing_is_printed_before_the_sync(rt: HostRuntime) {
    let (host, done) = served(&rt, BEGUN + 2);
    assert!(&rt; !done);
    assert!(&rt; printed(&rt, host.moves()).is_empty());
}

/// If the next call fails, which prints, the lines are in the log.
#[test]
fn lines_stand_though_nothing_was_printed(rt: HostRuntime) {
    let (host, done) = served(&rt, BEGUN + 3);
    assert!(&rt; !done);
    assert!(&rt; printed(&rt, host.moves()).is_empty());
    assert!(&rt; on_hand(&rt, log_bytes(host.moves())) == Some(35));
}
