//! The lines of a batch, handled over a disk in memory.
ghost use Rattle.std.specs.Prelude.{◌≡◌, ◌≤◌, length, vec_capacity};
ghost use Rattle.line_server.specs.logged.Handling.{AreHandled, IsHandledWell};
ghost use Rattle.line_server.specs.Batches.{texts_of};

use arrayvec::ArrayVec;
use d64_image::MemDisk;
use host_session::Session;
use image_log::TouchedDisk;
use request_cards::Reply;

/// Handles a line over memory, which never fails: no till gets the reply MEDIA.
fn handle_line(session: &mut Session<TouchedDisk<MemDisk>>, line: &[u8]) -> Reply
    ensures { IsHandledWell session.old session.new line.now result }
{
    session.handle(line)
}

/// Handles these lines one after another. The list has their replies then, and no others.
pub fn handle_batch(
    session: &mut Session<TouchedDisk<MemDisk>>,
    lines: &[ArrayVec<u8, 40>],
    replies: &mut Vec<Reply>,
)
    requires few { length lines.now ≤ 512 }
    requires room { 512 ≤ vec_capacity replies.old }
    ensures handled { AreHandled session.old session.new (texts_of lines.now) replies.new.items }
    ensures room { 512 ≤ vec_capacity replies.new }
{
    replies.clear();
    for line in lines {
        let reply = handle_line(session, line.as_slice());
        replies.push_reserved(reply);
    }
}
