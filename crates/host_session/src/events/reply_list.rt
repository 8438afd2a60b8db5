//! Replies that are put in a list.
ghost use Rattle.host_session.specs.runs.Outputs.{listed};

use crate::events::sinks::Replies;
use d64_image::Sectors;
use line_text::NotTaken;
use request_cards::Reply;

/// A list takes replies until it is full. It allocates no memory and buffers nothing.
impl<D: Sectors> Replies<D> for Vec<Reply> {
    ghost output = { listed };

    fn tell(&mut self, reply: &Reply, _disk: &D) -> Result<(), NotTaken> {
        if self.len() >= self.capacity() {
            return Err(NotTaken);
        }
        self.push_reserved(*reply);
        Ok(())
    }

    fn hand_on(&mut self) -> Result<(), NotTaken> {
        Ok(())
    }
}
