//! Playing a script over a log, as a run of the program.
ghost use Rattle.std.specs.Prelude.{◌≡◌, Err, IfSome, None};
ghost use Rattle.shop_jobs.specs.LoggedPlays.{IsLoggedPlay};
ghost use Rattle.line_text.specs.scripts.Lines.{first_reset, lines};
ghost use Rattle.command_faults.specs.declared.faults.CommandFault.TheVariants as faults;

use crate::logged_runs::serve_logged;
use command_faults::CommandFault;
use image_log::ImageLog;
use line_server::{BatchReplies, ScriptBatches};
use line_text::first_reset_line;
use std::alloc::Global;

/// Plays the lines of a script on the shop of an image, over a log that stands for that image: in batches of 512 lines,
/// each of which is handled in memory, made durable by one commit, and then answered. A last line without LF counts.
///
/// `BadLine`: the first line that begins with `@`, since a log has no resets. Nothing was done then. Otherwise the
/// faults of `serve_logged`, of which `File` means the output, since a script never fails.
pub fn play_logged<L: ImageLog, T: BatchReplies<L>>(
    alloc: Global,
    image: &[u8],
    script: &[u8],
    log: &mut L,
    out: &mut T,
) -> Result<(), CommandFault>
    ensures bad_line { IfSome (first_reset (lines script.now))
        (λ n. (result ≡ Err (faults.ScriptLine n)) × (log.new ≡ log.old) × (out.new ≡ out.old)) }
    ensures run { first_reset (lines script.now) ≡ None
        → IsLoggedPlay L.history T.output image.now script.now log.old log.new out.old out.new result }
{
    if let Some(line) = first_reset_line(script) {
        return Err(CommandFault::ScriptLine(line));
    }
    let mut left = ScriptBatches::new(script);
    serve_logged(alloc, image, log, &mut left, out)
}
