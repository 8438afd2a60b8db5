//! Replies that are printed.
ghost use Rattle.std.specs.Prelude.{◌≡◌, OnErr, OnOk};
ghost use Rattle.std.specs.Io.KnownBytes.{Appends};
ghost use Rattle.host_session.specs.runs.Outputs.{line_of, printed, printer_out};
ghost use Rattle.line_text.specs.Handed.{AppendsPart};

use crate::events::sinks::Replies;
use d64_image::Sectors;
use line_text::{NotTaken, hand_whole};
use request_cards::Reply;
use std::io::Write;

/// A writer of replies: each on a line of its own, with its LF, in one write.
#[derive(Drop)]
pub struct PrintedReplies<W> {
    out: W,
}

impl<W> PrintedReplies<W> {
    /// Replies go to this writer.
    pub fn new(out: W) -> PrintedReplies<W>
        ensures { printer_out result ≡ out }
    {
        PrintedReplies { out }
    }

    /// The writer.
    pub fn into_inner(self) -> W
        ensures { result ≡ printer_out self }
    {
        self.out
    }
}

/// Writes a reply on a line of its own, with its LF, in one write.
#[inline(always)]
pub(crate) fn write_line<W: Write>(out: &mut W, reply: &Reply) -> Result<(), NotTaken>
    ensures ok { OnOk result (Appends (W.contents out.old) (W.contents out.new) (line_of reply.now)) }
    ensures err { OnErr result (AppendsPart (W.contents out.old) (W.contents out.new) (line_of reply.now)) }
{
    let mut room = [b'\n'; 44];
    let start = reply.write(&mut room, 43);
    hand_whole(out, &room[start..])
}

impl<D: Sectors, W: Write> Replies<D> for PrintedReplies<W> {
    ghost output = { printed W.contents };

    fn tell(&mut self, reply: &Reply, _disk: &D) -> Result<(), NotTaken> {
        write_line(&mut self.out, reply)
    }

    // No contract says what a flush does with the bytes that the writer has buffered.
    fn hand_on(&mut self) -> Result<(), NotTaken> {
        match self.out.flush() {
            Ok(()) => Ok(()),
            Err(_) => Err(NotTaken),
        }
    }
}
