//! How far long work is, for a person who waits for it.
ghost use Rattle.shop_jobs.specs.JobOutputs.{of_no_log};

use disk_changes::ChangeKind;
use image_log::ImageLog;
use ledger_jobs::Job;
use line_text::NotTaken;
use request_cards::Reply;
use shop_jobs::{JobOutput, print_to_writer};
use std::io::{self, Write};

/// After how many more lines the count is printed again.
const STEP: u64 = 100;

/// Whether a job may go on for so long that a person wonders.
pub(crate) fn is_long(job: &Job<'_>) -> bool {
    match job {
        Job::Play { .. } | Job::PlayLogged { .. } | Job::Dry { .. } => true,
        Job::Change {
            kind: ChangeKind::Store { .. },
            ..
        } => true,
        _ => false,
    }
}

/// How many lines there are with those that end in these bytes.
fn counted(lines: u64, bytes: &[u8]) -> u64 {
    let mut lines = lines;
    for byte in bytes {
        if *byte == b'\n' {
            lines = lines.saturating_add(1);
        }
    }
    lines
}

/// An output with a count of the lines that it took. The count is printed in one line that is written over.
#[derive(Drop)]
pub(crate) struct Watched<'a, W: Write, E: Write> {
    out: &'a mut W,
    err: &'a mut E,
    lines: u64,
}

impl<'a, W: Write, E: Write> Watched<'a, W, E> {
    /// The output `out`; the count goes to `err`.
    pub(crate) fn new(out: &'a mut W, err: &'a mut E) -> Watched<'a, W, E> {
        Watched { out, err, lines: 0 }
    }

    /// Clears the count.
    pub(crate) fn clear(&mut self) {
        if self.lines >= STEP {
            let _ = self
                .err
                .write_all(b"\r                                   \r");
        }
    }
}

impl<W: Write, E: Write> Write for Watched<'_, W, E> {
    ghost contents = { λ w. W.contents w.out.now };

    fn write(&mut self, buf: &[u8]) -> io::Result<usize> {
        let taken = self.out.write(buf)?;
        let lines = counted(self.lines, &buf[..taken]);
        if lines / STEP != self.lines / STEP {
            let _ = write!(self.err, "\rledger: {lines} lines");
        }
        self.lines = lines;
        Ok(taken)
    }

    fn flush(&mut self) -> io::Result<()> {
        self.out.flush()
    }
}

impl<W: Write, E: Write> JobOutput for Watched<'_, W, E> {
    ghost replies = { λ L. of_no_log };

    fn print_reply<L: ImageLog>(&mut self, reply: &Reply, log: &L) -> Result<(), NotTaken> {
        print_to_writer(self, reply, log)
    }

    fn hand_on_replies<L: ImageLog>(&mut self) -> Result<(), NotTaken> {
        match self.flush() {
            Ok(()) => Ok(()),
            Err(_) => Err(NotTaken),
        }
    }
}
