//! Replies that are written to a borrowed writer.
ghost use Rattle.std.specs.Prelude.{◌≡◌};
ghost use Rattle.host_session.specs.runs.Lent.{written_to};

use crate::events::printing::write_line;
use crate::events::sinks::Replies;
use d64_image::Sectors;
use line_text::NotTaken;
use request_cards::Reply;
use std::io::Write;

/// A borrowed writer, which takes replies as that of a printer does.
#[derive(Drop)]
pub(crate) struct LentReplies<'a, W> {
    out: &'a mut W,
}

impl<'a, W> LentReplies<'a, W> {
    /// Replies go to this writer.
    pub(crate) fn new(out: &'a mut W) -> LentReplies<'a, W>
        ensures same { result.out.ghost_name ≡ out.entry.ghost_name }
        ensures out { result.out.now ≡ out.old }
    {
        LentReplies { out }
    }
}

impl<'a, D: Sectors, W: Write> Replies<D> for LentReplies<'a, W> {
    ghost output = { written_to W.contents };

    fn tell(&mut self, reply: &Reply, _disk: &D) -> Result<(), NotTaken> {
        write_line(self.out, reply)
    }

    fn hand_on(&mut self) -> Result<(), NotTaken> {
        match self.out.flush() {
            Ok(()) => Ok(()),
            Err(_) => Err(NotTaken),
        }
    }
}
