//! What a drive knows of the files of its disk.
ghost use Rattle.std.specs.Prelude.{◌≡◌, false, None};

use crate::open_file::{NamedFile, OpenFile};

/// What a drive knows of the files of its disk: the file that was opened last, with the open channel, and the file
/// before, so that opening either again needs no read. It also knows whether a check has passed since power-on.
#[derive(Drop)]
pub(crate) struct OpenFiles {
    pub(crate) last: Option<OpenFile>,
    pub(crate) before: Option<NamedFile>,
    pub(crate) checked: bool,
}

impl OpenFiles {
    /// Nothing is known yet.
    pub(crate) fn nothing() -> OpenFiles
        ensures last { result.last ≡ None }
        ensures before { result.before ≡ None }
        ensures checked { result.checked ≡ false }
    {
        OpenFiles {
            last: None,
            before: None,
            checked: false,
        }
    }
}
