//! Jobs over a host that says what its files hold, so that each clause of `do_job` speaks of their bytes. What a job leaves there is
//! what it leaves over bytes. And what the system's files do at paths.
ghost use Rattle.ledger_jobs.specs.Jobs.{IsFit};

use crate::comparing::same_at;
use crate::images::formatted;
use image_file::{Failures, HostFiles, NotedRuntime};
use image_log::{LogFolder, LogRoom, MemFolder, begin, image_room, sectors_of};
use ledger_cli::{Job, job, run};
use std::io::Cursor;
use std::process::Abort;
use test_files::{IMAGE_BYTES, Snapshot, Store, do_over, trim_over};

/// What stands at a path once a job is done.
#[derive(Clone, Copy)]
enum Then {
    /// Nothing.
    Gone,
    /// The image, as it was.
    Image,
    /// What the job makes of the image over bytes.
    Made,
    /// These bytes.
    Bytes(&'static [u8]),
}

/// The words of a job, what its script holds, how what it prints begins, and what stands at a path then.
type Row = (
    &'static [&'static str],
    &'static [u8],
    &'static [u8],
    &'static str,
    Then,
);

/// Jobs that write no image that is there. The host says that no log is there.
static READING: [Row; 12] = [
    (
        &["ledger", "check", "a.d64"],
        b"",
        b"OK\n",
        "a.d64",
        Then::Image,
    ),
    (
        &["ledger", "show", "a.d64"],
        b"",
        b"TOP 9",
        "a.d64",
        Then::Image,
    ),
    (
        &["ledger", "check", "a.d64", "a.d64"],
        b"",
        b"a.d64: OK\na.d64: OK\n",
        "a.d64",
        Then::Image,
    ),
    (
        &["ledger", "check", "--json", "a.d64"],
        b"",
        b"{\"beyond\":[],\"disk\":\"STOCK LEDGER\",\"errors\":[],",
        "a.d64",
        Then::Image,
    ),
    (
        &["ledger", "picture", "--sheet", "a.d64"],
        b"",
        b"<!DOCTYPE html>\n",
        "a.d64",
        Then::Image,
    ),
    (
        &["ledger", "picture", "--compare", "a.d64", "a.d64"],
        b"",
        b"<!DOCTYPE html>\n",
        "a.d64",
        Then::Image,
    ),
    (
        &["ledger", "dry", "s.txt"],
        b"1,1,S,1,5\n",
        b"1,1,DONE,5\n",
        "s.txt",
        Then::Bytes(b"1,1,S,1,5\n"),
    ),
    (
        &["ledger", "repair", "a.d64", "--dry-run"],
        b"",
        b"OK\n",
        "a.d64",
        Then::Image,
    ),
    (
        &["ledger", "copy", "a.d64", "b.d64"],
        b"",
        b"COPIED\n",
        "b.d64",
        Then::Image,
    ),
    (
        &["ledger", "extract", "a.d64", "out"],
        b"",
        b"EXTRACTED\n",
        "out",
        Then::Bytes(b""),
    ),
    (
        &["ledger", "format", "--new", "b.d64", "--tills", "2"],
        b"",
        b"FORMATTED\n",
        "b.d64",
        Then::Made,
    ),
    (
        &["ledger", "new", "b.d64", "--name", "A", "--id", "1X"],
        b"",
        b"FORMATTED\n",
        "b.d64",
        Then::Made,
    ),
];

/// Jobs that write an image.
static WRITING: [Row; 10] = [
    (
        &["ledger", "play", "a.d64", "s.txt"],
        b"1,1,S,1,5\n",
        b"1,1,DONE,5\n",
        "a.d64",
        Then::Made,
    ),
    (
        &["ledger", "play", "--sync", "a.d64", "s.txt"],
        b"1,1,S,1,5\n",
        b"1,1,DONE,5\n",
        "a.d64",
        Then::Made,
    ),
    (
        &["ledger", "serve", "a.d64"],
        b"1,1,S,1,5\n",
        b"1,1,DONE,5\n",
        "a.d64-log",
        Then::Gone,
    ),
    (
        &["ledger", "repair", "a.d64"],
        b"",
        b"OK\n",
        "a.d64",
        Then::Image,
    ),
    (
        &["ledger", "make", "a.d64", "MORE", "--length", "30"],
        b"",
        b"MADE\n",
        "a.d64",
        Then::Made,
    ),
    (
        &["ledger", "put", "a.d64", "HI", "s.txt", "--type", "prg"],
        b"HI",
        b"PUT\n",
        "a.d64",
        Then::Made,
    ),
    (
        &["ledger", "store", "a.d64", "CARDS", "s.txt"],
        b"2,hello\n",
        b"2,\"hello\"\n",
        "a.d64",
        Then::Made,
    ),
    (
        &["ledger", "rename", "a.d64", "CARDS", "OLD"],
        b"",
        b"RENAMED\n",
        "a.d64",
        Then::Made,
    ),
    (
        &["ledger", "delete", "a.d64", "CARDS"],
        b"",
        b"DELETED\n",
        "a.d64",
        Then::Made,
    ),
    (
        &["ledger", "format", "a.d64", "--tills", "4"],
        b"",
        b"FORMATTED\n",
        "a.d64",
        Then::Made,
    ),
];

/// A job that reads a log, which stands at `s.txt`.
static SALVAGING: Row = (
    &["ledger", "copy", "--log", "s.txt", "b.d64"],
    b"",
    b"COPIED\nCOMMITS 1\nLEFT 0\n",
    "b.d64",
    Then::Image,
);

/// What a job makes of an image over bytes.
fn made(rt: &(impl AllocGlobal + Abort), job: &Job<'_>, image: &[u8], script: &[u8]) -> Vec<u8>
    requires { IsFit job.now }
{
    let mut file = Cursor::new(image.to_vec(rt.alloc()).expect(rt, "there is memory"));
    let (mut out, mut err) = (Vec::new(rt.alloc()), Vec::new(rt.alloc()));
    let _ = run(
        rt.alloc(),
        job,
        image,
        script,
        Some(&mut file),
        &mut out,
        &mut err,
    );
    file.into_inner()
}

/// A shop that has the file CARDS, too.
fn with_cards(rt: &(impl AllocGlobal + Abort)) -> Vec<u8> {
    let words = ["ledger", "make", "a", "CARDS", "--length", "30"];
    let image = formatted(rt);
    let Ok(job) = job(rt.alloc(), &words) else {
        panic!(rt; "no job");
    };
    made(rt, &job, image.as_slice(), b"")
}

/// The bytes of a log that was begun for an image.
fn log_of(rt: &(impl AllocGlobal + Abort), image: &[u8]) -> Vec<u8> {
    if image.len() != IMAGE_BYTES {
        panic!(rt; "no image");
    }
    let folder = MemFolder::new(rt.alloc(), sectors_of(image));
    let mut folder = folder.expect(rt, "there is memory");
    let mut now = image_room(rt.alloc()).expect(rt, "there is memory");
    let mut base = image_room(rt.alloc()).expect(rt, "there is memory");
    let mut shop = image_room(rt.alloc()).expect(rt, "there is memory");
    let begun = begin(
        &mut folder,
        LogRoom::new(rt.alloc()).expect(rt, "there is memory"),
        now.as_mut_slice(),
        base.as_mut_slice(),
        shop.as_mut_slice(),
    );
    same_at(rt, begun.is_ok(), true, "a log is begun");
    let Ok(Some(log)) = folder.read_log() else {
        panic!(rt; "no log");
    };
    log
}

/// Does the job of a row over a host that has this image, and these bytes at `s.txt`.
fn see_done(rt: &(impl AllocGlobal + Abort), row: &Row, script: &[u8], quiet: bool, image: &[u8]) {
    let &(words, _, prints, path, then) = row;
    let store = Store::new(rt.alloc());
    let added = store.add("a.d64", image).is_ok() && store.add("s.txt", script).is_ok();
    same_at(rt, added, true, words);
    let host = Snapshot {
        alloc: rt.alloc(),
        image,
        text: script,
        quiet,
        store: &store,
    };
    let Ok(job) = job(rt.alloc(), words) else {
        panic!(rt; "no job: {words:?}");
    };
    let mut out = Vec::new(rt.alloc());
    same_at(rt, do_over(&host, &job, &mut out), Ok(None), words);
    same_at(rt, out.as_slice().starts_with(prints), true, words);
    let wanted = match then {
        Then::Gone => None,
        Then::Image => Some(image.to_vec(rt.alloc()).expect(rt, "there is memory")),
        Then::Made => Some(made(rt, &job, image, script)),
        Then::Bytes(bytes) => Some(bytes.to_vec(rt.alloc()).expect(rt, "there is memory")),
    };
    let there = store.bytes_of(path).expect(rt, "there is memory");
    same_at(rt, there == wanted, true, words);
}

#[test]
fn jobs_that_read_are_done_over_known_files(rt: HostRuntime) {
    let image = with_cards(&rt);
    for row in &READING {
        see_done(&rt, row, row.1, true, image.as_slice());
    }
}

#[test]
fn jobs_that_write_are_done_over_known_files(rt: HostRuntime) {
    let image = with_cards(&rt);
    for row in &WRITING {
        see_done(&rt, row, row.1, false, image.as_slice());
    }
}

#[test]
fn a_log_is_salvaged_over_known_files(rt: HostRuntime) {
    let image = with_cards(&rt);
    let log = log_of(&rt, image.as_slice());
    see_done(&rt, &SALVAGING, log.as_slice(), true, image.as_slice());
}

// `trim` reports on standard error: it is a call of its own.
#[test]
fn an_image_of_40_tracks_is_trimmed_over_known_files(rt: HostRuntime) {
    let image = with_cards(&rt);
    let mut long = image.to_vec(rt.alloc()).expect(&rt, "there is memory");
    long.resize(196_608, 0).expect(&rt, "there is memory");
    let store = Store::new(rt.alloc());
    let added = store.add("a.d64", long.as_slice()).is_ok();
    same_at(&rt, added, true, "trim");
    let host = Snapshot {
        alloc: rt.alloc(),
        image: long.as_slice(),
        text: b"",
        quiet: true,
        store: &store,
    };
    let (mut out, mut err) = (Vec::new(rt.alloc()), Vec::new(rt.alloc()));
    let ended = trim_over(&host, "a.d64", &mut out, &mut err);
    same_at(&rt, ended, Ok(None), "trim");
    let printed = (out.as_slice() == image.as_slice(), err.is_empty());
    same_at(&rt, printed, (true, true), "trim");
}

// A name is looked at before its file is opened, and may lead nowhere by then. The folder of an image at the root is synced.
#[test]
fn paths_of_the_system(rt: HostRuntime) {
    let failures = Failures::none();
    let host = NotedRuntime::new(&rt, &[], &failures);
    let opened = host.open_to_change("no.d64").is_ok();
    same_at(
        &rt,
        (opened, host.look_at("no.d64").is_ok()),
        (false, false),
        "none is made",
    );
    same_at(&rt, host.sync_folder_of("/a.d64").is_ok(), true, "the root");
}
