//! The receivers of a run's replies.
ghost use Rattle.std.specs.Prelude.{OnOk};
ghost use Rattle.host_session.specs.events.Instants.{instant_of};
ghost use Rattle.host_session.specs.events.Telling.{IsTold, Output, TellsNone};

use d64_image::Sectors;
use line_text::NotTaken;
use request_cards::Reply;

/// A receiver of a run's replies, one by one, each with the disk that its message left.
pub trait Replies<D: Sectors> {
    /// What is known of the replies that this output was passed.
    ghost output: { Output Self };

    /// Passes this reply to the output, with the disk as it is then. At an error a part of the reply, or all of it, may
    /// have been taken.
    fn tell(&mut self, reply: &Reply, disk: &D) -> Result<(), NotTaken>
        ensures { IsTold output self.old self.new reply.now (instant_of D.history disk.now) result };

    /// Flushes what is buffered. The replies that were passed stay. At Ok none of them is buffered any more.
    fn hand_on(&mut self) -> Result<(), NotTaken>
        ensures kept { TellsNone output self.old self.new }
        ensures ok { OnOk result (output.is_handed_on self.new) };
}
