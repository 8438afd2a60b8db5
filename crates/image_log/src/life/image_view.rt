//! An image and its log, of the system, as a reader sees them.
ghost use Rattle.std.specs.Prelude.{string_bytes};
ghost use Rattle.std.proofs.Props.{props};
ghost use Rattle.image_log.specs.life.LogRights.{MayReadLogOf, log_of};
ghost use Rattle.image_file.specs.paths.Standing.{IsMissing};
ghost use Rattle.image_log.specs.life.Views.{unseen};

use crate::life::image_folder::{log_to_read, read_sectors};
use crate::life::log_names::LogNames;
use crate::life::open_log::OpenLog;
use crate::life::tags::{TAGGED, take_tag};
use crate::life::viewing::ViewsImage;
use crate::log_reader::LogReader;
use image_file::HostFiles;
use std::fs::OpenFile;
use std::io;
use std::os::unix::fs::MetadataExt;

/// An image's open file, and the names of its log. Nothing is written. Nothing is known of what the two files hold: they
/// are trusted to satisfy the contract of `ViewsImage`.
#[derive(Drop)]
pub struct ImageView<'a, R: HostFiles> {
    rt: &'a R,
    names: &'a LogNames,
    image: R::File,
    // the log may be read
    ghost reads: { MayReadLogOf R.rights rt.now (string_bytes names.now.image) } by { Prim.hlevel props },
}

impl<'a, R: HostFiles> ImageView<'a, R> {
    /// The image whose file this is, open to be read. The caller has a shared lock on it.
    pub fn new(rt: &'a R, names: &'a LogNames, image: R::File) -> ImageView<'a, R>
        requires { MayReadLogOf R.rights rt.now (string_bytes names.now.image) }
        ensures { IsMissing R.stands rt.now (log_of (string_bytes names.now.image))
            → IsMissing R.stands result.rt.now (log_of (string_bytes result.names.now.image)) }
    {
        ImageView { rt, names, image }
    }
}

impl<R: HostFiles> ViewsImage for ImageView<'_, R>
where
    R::File: OpenFile,
{
    type Log = OpenLog<R::File>;

    ghost seen = { unseen };

    ghost HasNoLog = { λ view. IsMissing R.stands view.rt.now (log_of (string_bytes view.names.now.image)) };

    fn open_log(&mut self) -> io::Result<Option<OpenLog<R::File>>> {
        match log_to_read(self.rt, self.names)? {
            Some(file) => Ok(Some(OpenLog { file })),
            None => Ok(None),
        }
    }

    fn read_image(&mut self, image: &mut [[u8; 256]]) -> io::Result<()> {
        read_sectors(&mut self.image, image)?;
        take_tag(&mut image[TAGGED]);
        Ok(())
    }

    fn has_landed(&mut self, log: &mut OpenLog<R::File>, marked: bool) -> io::Result<bool> {
        log.file.sync_data()?;
        if !marked {
            return log.is_marked();
        }
        let Some(other) = log_to_read(self.rt, self.names)? else {
            return Ok(true);
        };
        let (one, two) = (OpenFile::metadata(&log.file)?, OpenFile::metadata(&other)?);
        Ok(one.dev() != two.dev() || one.ino() != two.ino())
    }
}
