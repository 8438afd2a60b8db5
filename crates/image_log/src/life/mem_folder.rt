//! The folder of an image in memory.
ghost use Rattle.std.specs.Prelude.{◌≡◌, ◌∷◌, ◌<◌, [], IfErr, IfOk, IsErr, None, OnErr, OnOk, false, length, option_map, slice_index_or, true};
ghost use Rattle.image_log.specs.life.FolderCalls.{began, none_failed, seen_after};
ghost use Rattle.image_log.specs.declared.life.mem_folder.FolderCall.TheVariants.{Return};
ghost use Rattle.std.proofs.Props.{props};

use crate::life::log_folder::LogFolder;
use crate::log_file::LogFile;
use crate::mem_log::MemLog;
use std::alloc::Global;
use std::io;

/// A call on the folder.
#[derive(Drop)]
pub enum FolderCall {
    /// The sector with this index was written.
    Write(usize, [u8; 256]),
    /// IMAGE was synced.
    SyncImage,
    /// A log in the making was made.
    Make,
    /// It got the name of the log, with these bytes.
    Name(Vec<u8>),
    /// The log's name was taken away.
    Remove,
    /// The folder was synced.
    SyncNames,
    /// The log's file was closed, which was lent at this moment of it.
    Return(usize, MemLog),
}

/// The folder of an image in memory. It keeps each call, so all that a power loss may leave is known. It fails if memory
/// is refused, if a file that is closed has failed, and if a log is opened that isn't there; from then on it fails each
/// call.
#[derive(Drop)]
pub struct MemFolder {
    alloc: Global,
    image: Vec<[u8; 256]>,
    log: Option<Vec<u8>>,
    // what it held at first
    first_image: Vec<[u8; 256]>,
    first_log: Option<Vec<u8>>,
    // the newest first
    calls: Vec<FolderCall>,
    // at which moment of it the log's file was opened or got its name
    lent: usize,
    // a file that couldn't be kept when it was closed
    lost: Option<MemLog>,
    failed: bool,
    ghost sized: { length image.items ≡ 683 },
    ghost image_is: { failed ≡ false → image.items ≡ (seen_after (began first_image.items (option_map (λ b. b.items) first_log)) calls.items).image } by { Prim.hlevel props },
    ghost log_is: { failed ≡ false → option_map (λ b. b.items) log ≡ (seen_after (began first_image.items (option_map (λ b. b.items) first_log)) calls.items).log } by { Prim.hlevel props },
    ghost kept: { failed ≡ false → lost ≡ None } by { Prim.hlevel props },
    ghost fine: { failed ≡ false → none_failed calls.items ≡ true } by { Prim.hlevel props },
}

/// The error if memory is refused.
fn refused<T>() -> io::Result<T>
    ensures { IsErr result }
{
    Err(io::ErrorKind::OutOfMemory.into())
}

/// A copy of bytes.
fn copy_of(alloc: Global, bytes: &[u8]) -> io::Result<Vec<u8>>
    ensures { IfOk result (λ copy. copy.items ≡ bytes.now) }
{
    match Vec::from_slice(alloc, bytes) {
        Ok(copy) => Ok(copy),
        Err(_) => refused(),
    }
}

/// Keeps a call.
fn note(calls: &mut Vec<FolderCall>, call: FolderCall) -> io::Result<()>
    ensures ok { OnOk result (calls.new.items ≡ call ∷ calls.old.items) }
    ensures err { OnErr result (calls.new.items ≡ calls.old.items) }
{
    match calls.insert(0, call) {
        Ok(()) => Ok(()),
        Err(_) => refused(),
    }
}

/// Keeps the closing of a file, which was lent at this moment of it. Gives the file back if memory is refused.
fn note_return(calls: &mut Vec<FolderCall>, lent: usize, file: MemLog) -> Result<(), MemLog>
    ensures ok { OnOk result (calls.new.items ≡ Return lent file ∷ calls.old.items) }
    ensures err { IfErr result (λ back. (back ≡ file) × (calls.new.items ≡ calls.old.items)) }
{
    match calls.insert(0, FolderCall::Return(lent, file)) {
        Ok(()) => Ok(()),
        Err(back) => match back.value {
            FolderCall::Return(_, file) => Err(file),
            // no other call was kept
            _ => Ok(()),
        },
    }
}

impl MemFolder {
    ghost use Rattle.std.specs.Prelude.{Some};
    ghost use Rattle.image_log.specs.life.FolderCalls.{began as began_with};
    ghost use Rattle.image_log.specs.life.Folders.{Acts, AllLeft, Folder, IsReturned, LeavesSector, Same};
    ghost use Rattle.image_log.specs.Memory.{memory};
    ghost use Rattle.image_log.specs.life.MemFolders.{folder_in_memory};

    /// The folder of this image, with no log. Err if memory is refused.
    pub fn new(alloc: Global, image: &[[u8; 256]]) -> io::Result<MemFolder>
        requires sized { length image.now ≡ 683 }
        ensures held { IfOk result (λ folder. folder_in_memory.held folder ≡ Some (began_with image.now None)) }
        ensures unfailed { IfOk result (λ folder. folder_in_memory.has_failed folder ≡ false) }
        ensures left { IfOk result (λ folder. AllLeft folder_in_memory folder (λ s. s ≡ began_with image.now None)) }
    {
        let Ok(first_image) = Vec::from_slice(alloc, image) else {
            return refused();
        };
        let Ok(image) = Vec::from_slice(alloc, image) else {
            return refused();
        };
        Ok(MemFolder {
            alloc,
            image,
            log: None,
            first_image,
            first_log: None,
            calls: Vec::new(alloc),
            lent: 0,
            lost: None,
            failed: false,
        })
    }

    /// The folder of this image, with these bytes in its log. Err if memory is refused.
    pub fn with_log(alloc: Global, image: &[[u8; 256]], log: &[u8]) -> io::Result<MemFolder>
        requires sized { length image.now ≡ 683 }
        ensures held { IfOk result (λ folder. folder_in_memory.held folder ≡ Some (began_with image.now (Some log.now))) }
        ensures unfailed { IfOk result (λ folder. folder_in_memory.has_failed folder ≡ false) }
    {
        let first_log = copy_of(alloc, log)?;
        let log = copy_of(alloc, log)?;
        let Ok(first_image) = Vec::from_slice(alloc, image) else {
            return refused();
        };
        let Ok(image) = Vec::from_slice(alloc, image) else {
            return refused();
        };
        Ok(MemFolder {
            alloc,
            image,
            log: Some(log),
            first_image,
            first_log: Some(first_log),
            calls: Vec::new(alloc),
            lent: 0,
            lost: None,
            failed: false,
        })
    }

    /// Fails as this file is closed: it can't be kept that it was, or its name leads elsewhere.
    pub fn lose(&mut self, file: MemLog) -> io::Result<()>
        ensures returned { IsReturned folder_in_memory memory self.old self.new file result }
        ensures err { IsErr result }
    {
        self.failed = true;
        match &self.lost {
            None => {
                self.lost = Some(file);
                refused()
            }
            Some(_) => refused(),
        }
    }

    /// Syncs IMAGE, and reads the sector with this index.
    pub fn read_synced(&mut self, index: usize) -> io::Result<[u8; 256]>
        requires within { index < 683 }
        ensures sector { IfOk result (λ sector. (s : Folder) → folder_in_memory.held self.new ≡ Some s
            → slice_index_or s.image index [] ≡ sector) }
        ensures left { IfOk result (LeavesSector folder_in_memory self.new index) }
        ensures lent { folder_in_memory.lent self.new ≡ folder_in_memory.lent self.old }
        ensures acts { Acts folder_in_memory self.old self.new (λ s. s) Same result }
    {
        if self.failed {
            return refused();
        }
        self.sync_image()?;
        Ok(self.image[index])
    }

    /// Whether a call failed: from then on each one does.
    pub fn is_failed(&self) -> bool
        ensures { result ≡ folder_in_memory.has_failed self.now }
    {
        self.failed
    }
}

impl LogFolder<MemLog> for MemFolder {
    ghost use Rattle.image_log.specs.life.MemFolders.{folder_in_memory};

    type Reader = Vec<u8>;

    ghost history = { folder_in_memory };

    fn read_image(&mut self, image: &mut [[u8; 256]]) -> io::Result<()> {
        if self.failed {
            return refused();
        }
        image.copy_from_slice(self.image.as_slice());
        Ok(())
    }

    fn write_sector(&mut self, index: usize, sector: &[u8; 256]) -> io::Result<()> {
        if self.failed {
            return refused();
        }
        self.failed = true;
        note(&mut self.calls, FolderCall::Write(index, *sector))?;
        self.image[index] = *sector;
        self.failed = false;
        Ok(())
    }

    fn sync_image(&mut self) -> io::Result<()> {
        if self.failed {
            return refused();
        }
        self.failed = true;
        note(&mut self.calls, FolderCall::SyncImage)?;
        self.failed = false;
        Ok(())
    }

    fn read_log(&mut self) -> io::Result<Option<Vec<u8>>> {
        if self.failed {
            return refused();
        }
        let Some(log) = &self.log else {
            return Ok(None);
        };
        self.failed = true;
        let copy = copy_of(self.alloc, log.as_slice())?;
        self.failed = false;
        Ok(Some(copy))
    }

    fn leave_log(&mut self, log: Vec<u8>) {
        drop(log);
    }

    fn open_log(&mut self) -> io::Result<MemLog> {
        if self.failed {
            return refused();
        }
        self.failed = true;
        let Some(log) = &self.log else {
            return Err(io::ErrorKind::NotFound.into());
        };
        let file = MemLog::of(self.alloc, log.as_slice())?;
        self.lent = 0;
        self.failed = false;
        Ok(file)
    }

    fn close_log(&mut self, file: MemLog) -> io::Result<()> {
        if self.failed || file.is_failed() {
            return self.lose(file);
        }
        let Ok(copy) = copy_of(self.alloc, file.bytes()) else {
            return self.lose(file);
        };
        match note_return(&mut self.calls, self.lent, file) {
            Err(file) => self.lose(file),
            Ok(()) => {
                self.log = Some(copy);
                Ok(())
            }
        }
    }

    fn make_log(&mut self) -> io::Result<MemLog> {
        if self.failed {
            return refused();
        }
        self.failed = true;
        note(&mut self.calls, FolderCall::Make)?;
        self.failed = false;
        Ok(MemLog::new(self.alloc))
    }

    fn leave_making(&mut self, file: MemLog) {
        if file.is_failed() {
            self.failed = true;
        }
    }

    fn name_log(&mut self, file: &MemLog) -> io::Result<()> {
        if self.failed {
            return refused();
        }
        self.failed = true;
        let kept = copy_of(self.alloc, file.bytes())?;
        let log = copy_of(self.alloc, file.bytes())?;
        note(&mut self.calls, FolderCall::Name(kept))?;
        self.log = Some(log);
        self.lent = file.calls();
        self.failed = false;
        Ok(())
    }

    fn tag(&mut self) -> io::Result<()> {
        Ok(())
    }

    fn remove_log(&mut self) -> io::Result<()> {
        if self.failed {
            return refused();
        }
        self.failed = true;
        note(&mut self.calls, FolderCall::Remove)?;
        self.log = None;
        self.failed = false;
        Ok(())
    }

    fn sync_folder(&mut self) -> io::Result<()> {
        if self.failed {
            return refused();
        }
        self.failed = true;
        note(&mut self.calls, FolderCall::SyncNames)?;
        self.failed = false;
        Ok(())
    }
}
