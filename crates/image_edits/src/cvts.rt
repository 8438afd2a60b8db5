//! The CVT of a file of GEOS, read from the host.
ghost use Rattle.std.specs.Prelude.{◌≡◌, ◌≢◌, ◌↔◌, IfErr, IfOk, IsTrue, None, vec_items};
ghost use Rattle.command_faults.specs.declared.faults.CommandFault.TheVariants.{File};
ghost use Rattle.disk_changes.specs.Cvts.{content_of};
ghost use Rattle.opened_files.specs.HostFiles.{IsUnread, OfText};
ghost use Rattle.opened_files.specs.Rights.{MayReadText};

use command_faults::CommandFault;
use disk_changes::cvt_content;
use image_file::HostFiles;
use opened_files::script_to_play;

/// Whether a host's file is no whole CVT.
pub fn is_no_cvt(bytes: &[u8]) -> bool
    ensures { IsTrue result ↔ (content_of bytes.now ≡ None) }
{
    cvt_content(bytes).is_none()
}

/// These bytes, if they are a whole CVT, and otherwise `File`.
fn whole_cvt(bytes: Vec<u8>) -> Result<Vec<u8>, CommandFault>
    ensures ok { IfOk result (λ cvt. (cvt ≡ bytes) × (content_of (vec_items cvt) ≢ None)) }
    ensures err { IfErr result (λ refusal. refusal ≡ File) }
{
    if is_no_cvt(bytes.as_slice()) {
        Err(CommandFault::File)
    } else {
        Ok(bytes)
    }
}

/// The CVT at a path, or that of standard input. `File` if it isn't a whole one.
pub(crate) fn cvt_at<R>(rt: &R, path: &str) -> Result<Vec<u8>, CommandFault>
where
    R: HostFiles + Input + AllocGlobal,
    requires { MayReadText R.rights rt.now path.now }
    ensures read { OfText R.stands rt.now path.now (λ all. IfOk result (λ cvt. (vec_items cvt ≡ all) × (content_of all ≢ None))) }
    ensures err { IfErr result IsUnread }
{
    let bytes = script_to_play(rt, path)?;
    whole_cvt(bytes)
}
