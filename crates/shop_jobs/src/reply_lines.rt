//! Replies that are printed to a writer that was lent.
ghost use Rattle.std.specs.Prelude.{◌≡◌, OnErr, OnOk};
ghost use Rattle.std.specs.Io.KnownBytes.{Appends};
ghost use Rattle.host_session.specs.runs.Outputs.{line_of};
ghost use Rattle.line_text.specs.Handed.{AppendsPart};
ghost use Rattle.shop_jobs.specs.JobOutputs.{lent_over, lines_over};
ghost use Rattle.shop_jobs.specs.Replies.{lines_to};

use crate::job_outputs::JobOutput;
use d64_image::{MemDisk, Sectors};
use host_session::Replies;
use image_log::{ImageLog, TouchedDisk};
use line_server::BatchReplies;
use line_text::{NotTaken, hand_whole};
use request_cards::Reply;
use std::io::Write;

/// A writer that was lent, to which replies are printed: each on a line of its own, with its LF, in one write.
#[derive(Drop)]
pub(crate) struct WatchedReplies<'a, W> {
    out: &'a mut W,
}

impl<'a, W> WatchedReplies<'a, W> {
    /// Replies go to this writer.
    pub(crate) fn new(out: &'a mut W) -> WatchedReplies<'a, W>
        ensures same { result.out.ghost_name ≡ out.entry.ghost_name }
        ensures out { result.out.now ≡ out.old }
    {
        WatchedReplies { out }
    }
}

/// Prints a reply on a line of its own, with its LF, in one write. If the reply isn't taken, a part of its line may have been
/// printed, or all of it.
#[inline(always)]
pub(crate) fn print_line<W: Write>(out: &mut W, reply: &Reply) -> Result<(), NotTaken>
    ensures ok { OnOk result (Appends (W.contents out.old) (W.contents out.new) (line_of reply.now)) }
    ensures err { OnErr result (AppendsPart (W.contents out.old) (W.contents out.new) (line_of reply.now)) }
{
    let mut room = [b'\n'; 44];
    let start = reply.write(&mut room, 43);
    hand_whole(out, &room[start..])
}

impl<'a, D: Sectors, W: Write> Replies<D> for WatchedReplies<'a, W> {
    ghost output = { lines_to W.contents };

    fn tell(&mut self, reply: &Reply, _disk: &D) -> Result<(), NotTaken> {
        print_line(self.out, reply)
    }

    // No contract says what a flush does with the bytes that the writer has buffered.
    fn hand_on(&mut self) -> Result<(), NotTaken> {
        match self.out.flush() {
            Ok(()) => Ok(()),
            Err(_) => Err(NotTaken),
        }
    }
}

/// An output of a job that was lent to a service, which prints each reply over its log.
#[derive(Drop)]
pub(crate) struct LentOutput<'a, W> {
    out: &'a mut W,
}

impl<'a, W> LentOutput<'a, W> {
    /// Replies go to this output.
    pub(crate) fn new(out: &'a mut W) -> LentOutput<'a, W>
        ensures same { result.out.ghost_name ≡ out.entry.ghost_name }
        ensures out { result.out.now ≡ out.old }
    {
        LentOutput { out }
    }
}

impl<'a, L: ImageLog, W: JobOutput> BatchReplies<L> for LentOutput<'a, W> {
    ghost output = { lent_over (lines_over W.contents (W.replies L)) };

    fn report(
        &mut self,
        reply: &Reply,
        log: &L,
        _disk: &TouchedDisk<MemDisk>,
    ) -> Result<(), NotTaken> {
        self.out.print_reply(reply, log)
    }

    fn pass_on(&mut self) -> Result<(), NotTaken> {
        self.out.hand_on_replies::<L>()
    }
}
