//! The steps of a life are the calls of a session: each of these functions is one call.
ghost use Rattle.shop_life.specs.Lives.{May, off, on};
ghost use Rattle.shop_life.specs.Lives.Step.{handles, opens};

use d64_image::Sectors;
use host_session::{OpenFault, Session};
use request_cards::Reply;

/// Opens a disk. The result is a step that a life may make there.
pub fn open_a_disk<D: Sectors>(disk: D) -> Result<Session<D>, (OpenFault, D)>
    ensures { May D.history (off disk) (opens result) }
{
    Session::open(disk)
}

/// Has a session answer a message. The reply and the session are a step that a life may make there.
pub fn handle_a_message<D: Sectors>(session: &mut Session<D>, message: &[u8]) -> Reply
    ensures { May D.history (on session.old) (handles message.now result session.new) }
{
    session.handle(message)
}
