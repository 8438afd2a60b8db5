//! Files that somebody moves, cuts or replaces between two commands.
use crate::counts::Event;
use crate::runs::Program;
use crate::stops::{Stop, see};
use crate::stories::{OldCopy, Story};
use crate::words::{IMAGE, LOG, SERVE, SHOW, Words};

impl<P: Program> Story<'_, P> {
    /// A command refuses what is there with one of two words, or shows the shop.
    fn see_refused(&mut self, words: Words, first: &[u8], second: &[u8]) -> Result<(), Stop> {
        let ended = self.look(words)?;
        let err = ended.err.as_slice();
        if ended.status == 1 && (err == first || err == second) {
            return Ok(());
        }
        see(ended.status == 0, "odd files are refused with another word")?;
        self.see_shop(&SHOW, "odd files are taken for another shop")
    }

    /// A log is cut short, and mended.
    fn cut_log(&mut self) -> Result<(), Stop> {
        let bytes = self.machine.bytes_of(LOG)?;
        let length = self.random.index(bytes.len());
        let short = &bytes.as_slice()[..length.min(bytes.len())];
        self.machine.put_file(LOG, short)?;
        self.see_refused(&SERVE, b"LOG\n", b"LOG\n")?;
        self.machine.put_file(LOG, bytes.as_slice())?;
        Ok(())
    }

    /// An image is cut short, and mended.
    fn cut_image(&mut self) -> Result<(), Stop> {
        let bytes = self.machine.bytes_of(IMAGE)?;
        let length = self.random.index(bytes.len());
        let short = &bytes.as_slice()[..length.min(bytes.len())];
        self.machine.put_file(IMAGE, short)?;
        self.see_refused(&SERVE, b"IMAGE SIZE\n", b"IMAGE SIZE\n")?;
        self.machine.put_file(IMAGE, bytes.as_slice())?;
        Ok(())
    }

    /// An older image is put beside a log that isn't its own, and the one that was there comes back.
    fn mix(&mut self) -> Result<(), Stop> {
        let bytes = self.machine.bytes_of(IMAGE)?;
        if let Some(old) = &self.old {
            self.machine.put_file(IMAGE, old.image.as_slice())?;
            self.see_refused(&SHOW, b"LOG\n", b"LOG AWAY\n")?;
        }
        self.machine.put_file(IMAGE, bytes.as_slice())?;
        Ok(())
    }

    /// Keeps a copy of the image.
    fn keep(&mut self) {
        if let Some(image) = self.image_alone() {
            let shop = self.shop;
            self.old = Some(OldCopy { image, shop });
        }
    }

    /// Restores the shop from an older copy.
    fn restore(&mut self) -> Result<(), Stop> {
        if self.has_log() {
            return Ok(());
        }
        if let Some(old) = &self.old {
            self.machine.put_file(IMAGE, old.image.as_slice())?;
            self.shop = old.shop;
        }
        Ok(())
    }

    /// Somebody does something with the files.
    pub(crate) fn hand(&mut self) -> Result<(), Stop> {
        self.counts.add(Event::Hand, 1);
        let has_log = self.has_log();
        match self.random.below(5) {
            0 if has_log => self.cut_log()?,
            1 if has_log => self.mix()?,
            0 | 1 => self.cut_image()?,
            2 | 3 => self.keep(),
            _ => self.restore()?,
        }
        self.see_shop(&SHOW, "a hand on files changed the shop")
    }
}
