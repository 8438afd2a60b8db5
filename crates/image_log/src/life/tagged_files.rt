//! The tag in an image's file.
ghost use Rattle.std.specs.Prelude.{◌<◌, ◌*◌, IfOk};
ghost use Rattle.image_log.specs.life.FileReads.{AreReadAt};

use crate::life::tags::{TAG_START, TAGGED, take_tag};
use image_file::EndedFile;
use std::io::{self, Read, Seek, SeekFrom};

/// Reads the sector with this index.
pub(crate) fn read_sector<F: Read + Seek>(file: &mut F, index: usize) -> io::Result<[u8; 256]>
    requires { index < 683 }
    ensures { IfOk result (AreReadAt F.Read.remaining F.Seek.stream_position F.Seek.stream_bytes file.old file.new (256 * index)) }
{
    let mut sector = [0; 256];
    file.seek(SeekFrom::Start(256 * index as u64))?;
    file.read_exact(&mut sector)?;
    Ok(sector)
}

/// Takes the tag off an image's file, and syncs that. At an error a part of it may be there, which counts as the tag.
pub fn untag_file<F: Read + Seek + EndedFile>(file: &mut F) -> io::Result<()> {
    let mut sector = read_sector(file, TAGGED)?;
    if take_tag(&mut sector) {
        file.write_over(&sector[TAG_START..], (256 * TAGGED + TAG_START) as u64)?;
        file.sync_whole()?;
    }
    Ok(())
}
