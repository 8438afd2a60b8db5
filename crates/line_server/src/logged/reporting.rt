//! Outputs to which the replies of a batch are reported once their log has them.
ghost use Rattle.std.specs.Prelude.{◌≡◌, ◌++◌, OnErr, OnOk};
ghost use Rattle.line_server.specs.logged.Reporting.{HandsOn, IsReported, LogOutput, ReportsAll, of_output, over_log};
ghost use Rattle.line_server.specs.logged.Memory.{Memory};

use d64_image::MemDisk;
use host_session::Replies;
use image_log::{ImageLog, TouchedDisk};
use line_text::NotTaken;
use request_cards::Reply;

/// An output of replies, each reported over a log. Every output that replies can be passed to is one, and says only which
/// replies it was passed.
pub trait BatchReplies<L: ImageLog> {
    /// What this output says of the replies that were reported to it.
    ghost output: { LogOutput L Self };

    /// Reports this reply. The log is lent as it is then, and the disk in memory. If the reply isn't taken, a part of it
    /// may have been passed, or all of it.
    fn report(
        &mut self,
        reply: &Reply,
        log: &L,
        disk: &TouchedDisk<MemDisk>,
    ) -> Result<(), NotTaken>
        ensures { IsReported output self.old self.new reply.now log.now result };

    /// Hands on what is held back. What was reported stays reported, and at Ok nothing of it is held back any more.
    fn pass_on(&mut self) -> Result<(), NotTaken>
        ensures { HandsOn output self.old self.new result };
}

impl<L: ImageLog, T: Replies<TouchedDisk<MemDisk>>> BatchReplies<L> for T {
    ghost output = { of_output T.output };

    fn report(
        &mut self,
        reply: &Reply,
        _log: &L,
        disk: &TouchedDisk<MemDisk>,
    ) -> Result<(), NotTaken> {
        self.tell(reply, disk)
    }

    fn pass_on(&mut self) -> Result<(), NotTaken> {
        self.hand_on()
    }
}

/// Reports these replies one after another, and hands them on together.
pub(crate) fn report_all<L: ImageLog, T: BatchReplies<L>>(
    out: &mut T,
    replies: &[Reply],
    log: &L,
    disk: &TouchedDisk<MemDisk>,
) -> Result<(), NotTaken>
    ensures { ReportsAll T.output out.old out.new (over_log log.now replies.now) result }
{
    if replies.is_empty() {
        return Ok(());
    }
    for reply in replies {
        out.report(reply, log, disk)?;
    }
    out.pass_on()
}
