//! Replies that are passed only while the shop's file is there.
ghost use Rattle.std.specs.Prelude.{◌≡◌, if◌then◌else◌, Err, IfErr, true};
ghost use Rattle.command_faults.specs.declared.faults.CommandFault.TheVariants as faults;
ghost use Rattle.shop_jobs.specs.WatchedFiles.{media_for as media, while_there};
ghost use Rattle.image_file.specs.paths.Rights.{Look, May};
ghost use Rattle.opened_files.specs.HostFiles.{IsUnbegun};

use command_faults::CommandFault;
use d64_image::MemDisk;
use disk_layout::Fault;
use image_file::{FileName, HostFiles, NameStays};
use image_log::{ImageLog, TouchedDisk};
use line_server::BatchReplies;
use line_text::NotTaken;
use request_cards::{Reply, Word};
use std::fs::OpenFile;

/// The name of the file that was opened at a path. `Device` if the path leads elsewhere by now.
pub(crate) fn name_of<'a, F: OpenFile, R: HostFiles<File = F>>(
    rt: &'a R,
    path: &'a str,
    file: &F,
) -> Result<FileName<'a, R>, CommandFault>
    requires { May R.rights rt.now Look path.now }
    ensures { IfErr result IsUnbegun }
{
    let name = FileName::of(rt, path, file)?;
    if !name.is_still_named() {
        return Err(CommandFault::Device);
    }
    Ok(name)
}

/// What is passed in the place of a reply if the file has gone: MEDIA to its request. The reply to a message that is no
/// request is MEDIA too.
fn media_for(reply: &Reply) -> Reply
    ensures { result ≡ media reply.now }
{
    match *reply {
        Reply::Told { till, number, .. } => Reply::Told {
            till,
            number,
            word: Word::Media,
        },
        Reply::Syntax => Reply::Syntax,
        Reply::Cut => Reply::Cut,
    }
}

/// An output to which replies are passed while a file stays. The file is looked for before the first of those that are
/// handed on together. After it has gone, MEDIA is passed in the place of the reply, and handed on, and no other reply.
#[derive(Drop)]
pub struct RepliesWhileNamed<'a, N, T> {
    file: &'a N,
    out: &'a mut T,
    /// Whether it was there at the first reply that wasn't handed on yet.
    seen: bool,
    gone: bool,
}

impl<'a, N, T> RepliesWhileNamed<'a, N, T> {
    /// Replies go to this output while the file is there.
    pub fn new(file: &'a N, out: &'a mut T) -> RepliesWhileNamed<'a, N, T>
        ensures same { result.out.ghost_name ≡ out.entry.ghost_name }
        ensures out { result.out.now ≡ out.old }
    {
        RepliesWhileNamed {
            file,
            out,
            seen: false,
            gone: false,
        }
    }
}

impl<N: NameStays, T> RepliesWhileNamed<'_, N, T> {
    /// Whether the file had gone when a reply was to be passed, or has gone by now: it is looked for once more.
    pub fn has_gone(&self) -> bool
        ensures { self.now.gone ≡ true → result ≡ true }
    {
        self.gone || !self.file.is_still_named()
    }
}

impl<L: ImageLog, N: NameStays, T> BatchReplies<L> for RepliesWhileNamed<'_, N, T>
where
    T: BatchReplies<L>,
{
    ghost output = { while_there T.output };

    fn report(
        &mut self,
        reply: &Reply,
        log: &L,
        disk: &TouchedDisk<MemDisk>,
    ) -> Result<(), NotTaken> {
        if !self.gone && (self.seen || self.file.is_still_named()) {
            self.seen = true;
            return self.out.report(reply, log, disk);
        }
        self.gone = true;
        if self.out.report(&media_for(reply), log, disk).is_ok() {
            let _ = self.out.pass_on();
        }
        Err(NotTaken)
    }

    fn pass_on(&mut self) -> Result<(), NotTaken> {
        self.seen = false;
        self.out.pass_on()
    }
}

/// The end of a service that ended so: `Device` if the file had gone.
pub(crate) fn served_end(
    ended: Result<Option<Fault>, CommandFault>,
    gone: bool,
) -> Result<Option<Fault>, CommandFault>
    ensures { result ≡ (if gone then Err faults.Device else ended) }
{
    if gone {
        return Err(CommandFault::Device);
    }
    ended
}
