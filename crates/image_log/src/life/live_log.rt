//! A log that is renewed when it is full.
ghost use Rattle.std.specs.Prelude.{◌≡◌, length};

use crate::image_log::ImageLog;
use crate::life::ending::end_log;
use crate::life::landing::LogFault;
use crate::life::log_folder::LogFolder;
use crate::life::making::make_new;
use crate::life::renewing::renew;
use crate::log::{Log, none_touched};
use crate::log_file::LogFile;
use crate::log_room::LogRoom;
use std::alloc::Global;
use std::io;

/// An open log and the folder in which it stands. A commit that leaves no room for a further one copies the image into
/// IMAGE, and a new log takes the place of the full one.
#[derive(Drop)]
pub struct LiveLog<F: LogFile, D> {
    alloc: Global,
    folder: D,
    // None once it couldn't be renewed
    log: Option<Log<F>>,
    // the image that the log began with, which IMAGE has
    base: Vec<[u8; 256]>,
    // the image that was committed last
    shop: Vec<[u8; 256]>,
    // whether the log had a commit, or a part of one
    used: bool,
    ghost sized: { length base.items ≡ 683 },
    ghost kept: { length shop.items ≡ 683 },
}

impl<F: LogFile, D: LogFolder<F> + Drop> LiveLog<F, D> {
    ghost use Rattle.std.specs.Prelude.{◌⊎◌, IfErr, IfOk, IfSome, IsErr, List, OnErr, OnOk, Some, false, true, ℕ};
    ghost use Rattle.d64_image.specs.Images.{Image};
    ghost use Rattle.image_log.specs.life.Folders.{AllLeft, Folder, LeavesFolders};
    ghost use Rattle.image_log.specs.life.Bringing.{IsBrought, RestsAlone};
    ghost use Rattle.image_log.specs.life.LiveLogs.{IsBeginning, IsEnding, IsLeftAlone, is_shut, of_live};
    ghost use Rattle.image_log.specs.ImageLogs.{IsEither, LeavesImages};
    ghost use Rattle.image_log.specs.Logs.{log_file};
    ghost use Rattle.image_log.specs.Marks.{Covers};

    /// Makes a log in a folder that was landed with this image, in this room. `kept` is room for the image that is committed
    /// last. At an error the folder is returned, and still gives this image.
    pub fn begin(
        alloc: Global,
        mut folder: D,
        room: LogRoom,
        shop: Vec<[u8; 256]>,
        mut kept: Vec<[u8; 256]>,
    ) -> Result<LiveLog<F, D>, (io::Error, D)>
        requires sized { length shop.items ≡ 683 }
        requires kept { length kept.items ≡ 683 }
        ensures stands { IfOk result (λ live. (s : Folder) → D.history.held folder ≡ Some s → s.image ≡ shop.items
            → AllLeft D.history folder (IsBrought shop.items) → (of_live D.history).stands_for live shop.items) }
        ensures any_moment { IfOk result (λ live. (s : Folder) → D.history.held folder ≡ Some s
            → AllLeft D.history folder (IsBrought shop.items) → IsBeginning D.history folder live (IsBrought shop.items)) }
        // it takes a commit
        ensures room { IfOk result (λ live. (of_live D.history).is_over live ≡ false) }
        ensures tagged { IfOk result (λ live. (named : D) × D.IsTagged named live.folder) }
        ensures err { IfErr result (λ e. (s : Folder) → D.history.held folder ≡ Some s
            → AllLeft D.history folder (IsBrought shop.items)
            → LeavesFolders D.history folder e.1 (IsBrought shop.items)) }
        // and then the folder or the log's file failed
        ensures cause { IfErr result (λ e. D.history.has_failed e.1 ≡ true) }
    {
        let image = shop.as_slice();
        kept.as_mut_slice().copy_from_slice(image);
        match make_new(&mut folder, room, image) {
            Ok(log) => Ok(LiveLog {
                alloc,
                folder,
                log: Some(log),
                base: shop,
                shop: kept,
                used: false,
            }),
            Err(error) => Err((error, folder)),
        }
    }

    /// Commits to the log, which must have room. Returns whether it is full then.
    fn append(&mut self, now: &[[u8; 256]], touched: &[bool; 683]) -> io::Result<bool>
        requires sized { length now.now ≡ 683 }
        ensures ok { OnOk result ((before : Image) → (of_live D.history).stands_for self.old before
            → Covers touched.now before now.now → (of_live D.history).stands_for self.new now.now) }
        ensures any_moment { (before : Image) → (of_live D.history).stands_for self.old before
            → Covers touched.now before now.now
            → LeavesImages (of_live D.history) self.old self.new (IsEither before now.now) }
        ensures room { IfOk result (λ full. full ≡ false → (of_live D.history).is_over self.new ≡ false) }
        ensures cause { OnErr result (((of_live D.history).is_over self.old ≡ true)
            ⊎ ((of_live D.history).has_failed self.new ≡ true)) }
        ensures err { OnErr result ((of_live D.history).is_over self.new ≡ true) }
        ensures open { OnOk result (is_shut D.history self.new.log ≡ false) }
    {
        let Some(log) = &mut self.log else {
            return Err(io::ErrorKind::Other.into());
        };
        if log.is_full() {
            return Err(io::ErrorKind::StorageFull.into());
        }
        self.used = true;
        log.commit(now, touched)?;
        self.shop.as_mut_slice().copy_from_slice(now);
        Ok(log.is_full())
    }

    /// Puts a new log in the place of the full one, with this image as its base, which IMAGE gets before. At an error it
    /// has no log.
    fn renew(&mut self, now: &[[u8; 256]]) -> io::Result<()>
        requires sized { length now.now ≡ 683 }
        ensures ok { OnOk result ((of_live D.history).stands_for self.old now.now
            → (of_live D.history).stands_for self.new now.now) }
        ensures any_moment { (of_live D.history).stands_for self.old now.now
            → LeavesImages (of_live D.history) self.old self.new (λ c. c ≡ now.now) }
        ensures room { OnOk result ((of_live D.history).is_over self.new ≡ false) }
        // an error is returned only if it had no log, or after a failure of the folder or of a log's file
        ensures cause { OnErr result ((is_shut D.history self.old.log ≡ true)
            ⊎ ((of_live D.history).has_failed self.new ≡ true)) }
        ensures err { OnErr result ((of_live D.history).is_over self.new ≡ true) }
    {
        let Some(log) = self.log.take() else {
            return Err(io::ErrorKind::Other.into());
        };
        let base = self.base.as_slice();
        let new = renew(&mut self.folder, log, base, now)?;
        self.base.as_mut_slice().copy_from_slice(now);
        self.used = false;
        self.log = Some(new);
        Ok(())
    }

    /// Lands the log, and returns the folder: IMAGE has the image that was committed last then, and the log is gone. The log isn't
    /// read. If it takes no more commits, or its name leads to another file, or IMAGE isn't as the log began, this is an error,
    /// and the files are left alone: the next beginning lands it. At an error the folder gives the image that it gave.
    pub fn end(self) -> (D, Result<(), LogFault>)
        ensures any_moment { (image : Image) → (of_live D.history).stands_for self image → IsEnding D.history self result.0 image }
        ensures ok { OnOk result.1 ((image : Image) → (of_live D.history).stands_for self image
            → RestsAlone D.history result.0 image) }
        // one that was closed, or couldn't be renewed, is left alone
        ensures over { is_shut D.history self.log ≡ true → IsErr result.1 × IsLeftAlone D.history self.folder self.log result.0 }
        // and so is one whose name has gone
        ensures away { IfSome self.log (λ l. D.IsAway self.folder (log_file l) → IsErr result.1
            × IsLeftAlone D.history self.folder self.log result.0) }
        // IMAGE was as the log began, if both files are known
        ensures own { IfSome self.log (λ l. OnOk result.1 ((s : Folder) (f : List ℕ) → D.history.held self.folder ≡ Some s
            → F.history.held (log_file l) ≡ Some f → s.image ≡ self.base.items)) }
    {
        let LiveLog {
            alloc,
            mut folder,
            log,
            base,
            shop,
            ..
        } = self;
        let base = base.as_slice();
        let shop = shop.as_slice();
        let ended = end_log(alloc, &mut folder, log, base, shop);
        (folder, ended)
    }
}

impl<F: LogFile, D: LogFolder<F> + Drop> ImageLog for LiveLog<F, D> {
    ghost use Rattle.std.specs.Prelude.{OnOk, false};
    ghost use Rattle.image_log.specs.life.LiveLogs.{of_live};
    ghost use Rattle.image_log.specs.ImageLogs.{IsCommitted};

    ghost history = { of_live D.history };

    fn commit(&mut self, now: &[[u8; 256]], touched: &[bool; 683]) -> io::Result<()>
        requires sized { length now.now ≡ 683 }
        ensures committed { IsCommitted (of_live D.history) self.old self.new now.now touched.now result }
        // a full log is renewed: it takes one more
        ensures room { OnOk result ((of_live D.history).is_over self.old ≡ false
            → (of_live D.history).is_over self.new ≡ false) }
    {
        if none_touched(touched) {
            return Ok(());
        }
        if self.append(now, touched)? {
            return self.renew(now);
        }
        Ok(())
    }
}
