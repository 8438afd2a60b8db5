//! Bytes handed to a writer.
ghost use Rattle.std.specs.Prelude.{OnErr, OnOk};
ghost use Rattle.std.specs.Io.KnownBytes.{Appends};
ghost use Rattle.line_text.specs.Handed.{AppendsPart};

use std::io::{ErrorKind, Write};

/// Bytes, or what else was to be passed on, weren't taken, or only in part.
#[derive(Clone, Copy, Debug, PartialEq, Eq)]
pub struct NotTaken;

/// Passes all of these bytes to the writer, in one call if it takes them. If it takes only a part, the rest follows. At an
/// error the writer failed or took no byte, and it has a prefix of the bytes.
#[inline(always)]
pub fn hand_whole<W: Write>(out: &mut W, bytes: &[u8]) -> Result<(), NotTaken>
    ensures ok { OnOk result (Appends (W.contents out.old) (W.contents out.new) bytes.now) }
    ensures err { OnErr result (AppendsPart (W.contents out.old) (W.contents out.new) bytes.now) }
{
    let mut written = 0;
    for _ in 0..u64::MAX {
        if written == bytes.len() {
            return Ok(());
        }
        match out.write(&bytes[written..]) {
            Ok(0) => return Err(NotTaken),
            Ok(more) => written += more,
            Err(error) => {
                if error.kind() != ErrorKind::Interrupted {
                    return Err(NotTaken);
                }
            }
        }
    }
    Err(NotTaken)
}
