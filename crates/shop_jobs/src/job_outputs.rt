//! What a job prints to.
ghost use Rattle.line_server.specs.logged.Reporting.{HandsOn, IsReported};
ghost use Rattle.shop_jobs.specs.JobOutputs.{OverLogs, lines_over, of_no_log};

use crate::reply_lines::print_line;
use image_log::ImageLog;
use line_text::NotTaken;
use request_cards::Reply;
use std::alloc::Global;
use std::io::{BufWriter, Write};

/// What a job prints to. A service prints each reply over the log that has the reply's request by then. So an output may say what a
/// power loss leaves at the moment of the first byte. An output that only prints, as `Vec` and `BufWriter` do, says nothing of
/// logs.
pub trait JobOutput: Write {
    /// What this output says of the replies that were printed to it, each over a log.
    ghost replies: { OverLogs Self };

    /// Prints a reply on a line of its own, with its LF. The log is lent as it is then. If the reply isn't taken, a part of its
    /// line may have been printed, or all of it.
    fn print_reply<L: ImageLog>(&mut self, reply: &Reply, log: &L) -> Result<(), NotTaken>
        ensures { IsReported (lines_over Self.contents (replies L)) self.old self.new reply.now log.now result };

    /// Hands on what is held back. At Ok nothing of it is held back any more.
    fn hand_on_replies<L: ImageLog>(&mut self) -> Result<(), NotTaken>
        ensures { HandsOn (lines_over Self.contents (replies L)) self.old self.new result };
}

/// Prints a reply to a writer that says nothing of logs, on a line of its own, with its LF, in one write. If the reply isn't taken, a
/// part of its line may have been printed, or all of it.
pub fn print_to_writer<L: ImageLog, W: Write>(
    out: &mut W,
    reply: &Reply,
    _log: &L,
) -> Result<(), NotTaken>
    ensures { IsReported (lines_over W.contents of_no_log) out.old out.new reply.now _log.now result }
{
    print_line(out, reply)
}

impl JobOutput for Vec<u8> {
    ghost replies = { λ L. of_no_log };

    fn print_reply<L: ImageLog>(&mut self, reply: &Reply, log: &L) -> Result<(), NotTaken> {
        print_to_writer(self, reply, log)
    }

    fn hand_on_replies<L: ImageLog>(&mut self) -> Result<(), NotTaken> {
        Ok(())
    }
}

impl<W: Write + Drop> JobOutput for BufWriter<W> {
    ghost replies = { λ L. of_no_log };

    fn print_reply<L: ImageLog>(&mut self, reply: &Reply, log: &L) -> Result<(), NotTaken> {
        print_to_writer(self, reply, log)
    }

    fn hand_on_replies<L: ImageLog>(&mut self) -> Result<(), NotTaken> {
        match self.flush() {
            Ok(()) => Ok(()),
            Err(_) => Err(NotTaken),
        }
    }
}
