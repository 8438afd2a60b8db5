//! Jobs run over bytes, as another program calls them, with outputs that note how they are called, or that fail.
use crate::comparing::same_at;
use crate::images::formatted;
use ledger_cli::{DryFault, Loss, dry, job, run, run_over};
use std::io::{self, Cursor, ErrorKind, Write};
use std::process::Abort;

/// What an output does at its first call.
#[derive(Clone, Copy, PartialEq, Eq)]
enum First {
    TakesAll,
    TakesNothing,
    Fails,
    IsInterrupted,
}

/// An output that may fail, and notes how often it was called and what it took.
#[derive(Drop)]
struct Noted {
    first: First,
    /// Whether it hands on what it took, and how much it handed on.
    hands_on: bool,
    handed: usize,
    calls: usize,
    bytes: Vec<u8>,
}

impl Write for Noted {
    fn write(&mut self, buf: &[u8]) -> io::Result<usize> {
        self.calls = self.calls.saturating_add(1);
        match self.first {
            First::TakesNothing if self.calls == 1 => Ok(0),
            First::Fails if self.calls == 1 => Err(io::Error::from(ErrorKind::Other)),
            First::IsInterrupted if self.calls == 1 => Err(io::Error::from(ErrorKind::Interrupted)),
            _ => self.bytes.write(buf),
        }
    }

    fn flush(&mut self) -> io::Result<()> {
        if !self.hands_on {
            return Err(io::Error::from(ErrorKind::StorageFull));
        }
        self.handed = self.bytes.len();
        Ok(())
    }
}

/// An output that nothing was written to.
fn new_output(rt: &impl AllocGlobal, first: First, hands_on: bool) -> Noted {
    let bytes = Vec::new(rt.alloc());
    Noted {
        first,
        hands_on,
        handed: 0,
        calls: 0,
        bytes,
    }
}

/// The status of a job over a fresh shop with this script, and what it reported.
fn ran(
    rt: &(impl AllocGlobal + Abort),
    words: &'static [&'static str],
    script: &[u8],
    out: &mut Noted,
) -> (u8, Vec<u8>) {
    let image = formatted(rt);
    let mut file = Cursor::new(image.clone().expect(rt, "there is memory"));
    let mut err = Vec::new(rt.alloc());
    let Ok(job) = job(rt.alloc(), words) else {
        panic!(rt; "no job: {words:?}");
    };
    let status = run(
        rt.alloc(),
        &job,
        image.as_slice(),
        script,
        Some(&mut file),
        out,
        &mut err,
    );
    (status, err)
}

/// The words of a job, its script, the status, what it prints and what it reports.
type Row = (
    &'static [&'static str],
    &'static [u8],
    u8,
    &'static [u8],
    &'static [u8],
);

/// A job of each kind. There is no folder for the log of `serve`.
static JOBS: [Row; 10] = [
    (&["ledger", "check", "a"], b"", 0, b"OK\n", b""),
    (&["ledger", "show", "a"], b"", 0, b"TOP 9256\n", b""),
    (
        &["ledger", "play", "a", "s"],
        b"1,1,S,1,5\n1,2,I,1,6\n",
        0,
        b"1,1,DONE,5\n1,2,SHORT,5\n",
        b"",
    ),
    (
        &["ledger", "play", "--sync", "a", "s"],
        b"1,1,S,1,5\n",
        0,
        b"1,1,DONE,5\n",
        b"",
    ),
    (
        &["ledger", "play", "a", "s"],
        b"1,1,S,1,5\n@x\n",
        1,
        b"",
        b"SCRIPT LINE 2\n",
    ),
    (&["ledger", "serve", "a"], b"1,1,S,1,5\n", 3, b"", b"FILE\n"),
    (&["ledger", "repair", "a"], b"", 0, b"OK\n", b""),
    (
        &["ledger", "make", "a", "CARDS", "--length", "30"],
        b"",
        0,
        b"MADE\n",
        b"",
    ),
    (
        &["ledger", "store", "a", "REQUESTS", "s"],
        b"2,hello\n",
        0,
        b"2,\"hello\"\n",
        b"",
    ),
    (
        &["ledger", "store", "a", "REQUESTS", "s"],
        b"1,A\nx\n",
        1,
        b"",
        b"RECORDS LINE 2\n",
    ),
];

#[test]
fn jobs_are_run(rt: HostRuntime) {
    for &(words, script, wanted, prints, tells) in &JOBS {
        let mut out = new_output(&rt, First::TakesAll, true);
        let (status, told) = ran(&rt, words, script, &mut out);
        same_at(&rt, status, wanted, words);
        same_at(&rt, out.bytes.as_slice(), prints, words);
        same_at(&rt, told.as_slice(), tells, words);
        same_at(&rt, out.handed, prints.len(), words);
    }
}

/// Jobs that hand on what they print.
static PRINTING: [&'static [&'static str]; 10] = [
    &["ledger", "check", "a"],
    &["ledger", "show", "a"],
    &["ledger", "list", "a"],
    &["ledger", "format", "a", "--tills", "2"],
    &["ledger", "dry", "s"],
    &["ledger", "play", "a", "s"],
    &["ledger", "repair", "a"],
    &["ledger", "records", "a", "REQUESTS"],
    &["ledger", "map", "a"],
    &["ledger", "picture", "a"],
];

#[test]
fn outputs_that_hand_nothing_on_are_told(rt: HostRuntime) {
    for &words in &PRINTING {
        let mut out = new_output(&rt, First::TakesAll, false);
        let (status, told) = ran(&rt, words, b"1,1,S,1,5\n", &mut out);
        same_at(&rt, status, 3, words);
        same_at(&rt, told.as_slice(), b"FILE\n".as_slice(), words);
        same_at(&rt, out.bytes.is_empty(), false, words);
    }
}

/// What an output does at first, the status of a play of four lines over it, and how often the output is called: a reply
/// is one write, and only an interrupted call is made again.
static CALLS: [(First, u8, usize); 4] = [
    (First::TakesAll, 0, 4),
    (First::TakesNothing, 3, 1),
    (First::Fails, 3, 1),
    (First::IsInterrupted, 0, 5),
];

#[test]
fn outputs_are_called_once_a_reply(rt: HostRuntime) {
    let script = b"1,1,S,1,10\n@2/1 1,2,S,15,3\n1,2,S,15,3\n1,3,M,1,4,15\n";
    for &(first, wanted, calls) in &CALLS {
        let mut out = new_output(&rt, first, true);
        let (status, _) = ran(&rt, &["ledger", "play", "a", "s"], script, &mut out);
        same_at(&rt, (status, out.calls), (wanted, calls), calls);
        let mut out = new_output(&rt, first, true);
        let done = dry(b"1,1,S,1,10\n1,2,S,15,3\n1,3,M,1,4,15\nx\n", &mut out);
        same_at(&rt, (done.is_ok(), out.calls), (wanted == 0, calls), calls);
    }
}

// The first request is written at byte 86,528 first, of which the file has a part. What was replied before is handed on.
#[test]
fn a_file_that_fails_leaves_the_replies(rt: HostRuntime) {
    let image = formatted(&rt);
    let mut short = vec![in rt.alloc(); 0; 86_600].expect(&rt, "there is memory");
    let mut out = new_output(&rt, First::TakesAll, true);
    let mut err = Vec::new(rt.alloc());
    let job = ledger_cli::Job::Play {
        image: "a",
        script: "s",
        loss: Loss::Refused,
    };
    let (status, _) = run_over(
        rt.alloc(),
        &job,
        image.as_slice(),
        b"x\n1,1,S,15,7\n",
        Some(Cursor::new(short.as_mut_slice())),
        &mut out,
        &mut err,
    );
    let replies = b"30,SYNTAX ERROR,00,00\n1,1,MEDIA\n".as_slice();
    same_at(&rt, (status, out.handed), (3, replies.len()), "status");
    same_at(&rt, out.bytes.as_slice(), replies, "replies");
}

// An image has 174,848 bytes. From a file with two more it takes all but the last two.
#[test]
fn a_file_is_handed_back(rt: HostRuntime) {
    let job = ledger_cli::Job::Format {
        image: "a",
        tills: 2,
    };
    let long = vec![in rt.alloc(); 7; 174_850].expect(&rt, "there is memory");
    let (mut out, mut err) = (Vec::new(rt.alloc()), Vec::new(rt.alloc()));
    let (status, file) = run_over(
        rt.alloc(),
        &job,
        b"",
        b"",
        Some(Cursor::new(long)),
        &mut out,
        &mut err,
    );
    let bytes = file.expect(&rt, "the file").into_inner();
    let image = formatted(&rt);
    same_at(
        &rt,
        bytes.as_slice().strip_prefix(image.as_slice()),
        Some(&[7, 7][..]),
        status,
    );
}

// A fresh disk with 64 tills has 8819 records.
#[test]
fn scripts_are_played_without_a_disk(rt: HostRuntime) {
    let mut out = new_output(&rt, First::TakesAll, true);
    let done: Result<(), DryFault> = dry(b"1,1,S,8819,4\n1,2,S,8820,4\n", &mut out);
    let replies = b"1,1,DONE,4\n1,2,72,DISK FULL\n".as_slice();
    same_at(&rt, done, Ok(()), "done");
    same_at(&rt, out.bytes.as_slice(), replies, "replies");
    same_at(
        &rt,
        dry(b"@0 1,1,S,1,0\n", &mut out),
        Err(DryFault::BadLine(1)),
        "line",
    );
    let numbers = (DryFault::BadLine(1).number(), DryFault::Output.number());
    same_at(&rt, numbers, (2, 3), "numbers");
}
