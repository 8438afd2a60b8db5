//! The calls of the program that change files.

/// A call that changes something, with what it is handed.
#[derive(Drop)]
pub(crate) enum Call {
    /// Bytes are put over those of a file from there on.
    Write {
        number: usize,
        at: usize,
        bytes: Vec<u8>,
    },
    /// A file gets a length.
    End {
        number: usize,
        length: usize,
    },
    /// A file or the folder is synced.
    Sync {
        number: usize,
    },
    /// A file without bytes is made.
    Make {
        path: String,
    },
    /// A file gets another name besides.
    Link {
        from: String,
        to: String,
    },
    /// A name is taken away.
    Remove {
        path: String,
    },
    /// A file gets another name in the place of its own.
    Rename {
        from: String,
        to: String,
    },
}

impl Call {
    /// Whether it syncs, or makes, changes or removes a name.
    pub(crate) fn is_step(&self) -> bool {
        !matches!(self, Call::Write { .. } | Call::End { .. })
    }

    /// Whether it gives a file another name besides.
    pub(crate) fn is_link(&self) -> bool {
        matches!(self, Call::Link { .. })
    }
}
