//! Where a byte of a program stands.
ghost use Rattle.std.specs.Prelude.{◌≡◌};
ghost use Rattle.line_text.specs.basic.Places.{place_after};

/// Where the next byte of a program stands.
#[derive(Clone, Copy, PartialEq, Eq)]
pub(crate) enum BytePlace {
    /// The first of a line's link.
    Link,
    /// The second.
    LinkHigh,
    /// The first of a line's number.
    Number,
    /// The second, after this one.
    NumberHigh(u8),
    /// Within a line.
    Line {
        /// Whether it is between quotation marks.
        quoted: bool,
        /// Whether it is after REM.
        remark: bool,
    },
    /// After the program.
    End,
}

impl BytePlace {
    /// Where the byte after this one stands.
    pub(crate) fn after(self, byte: u8) -> BytePlace
        ensures { result ≡ place_after self byte }
    {
        match self {
            BytePlace::Link => BytePlace::LinkHigh,
            BytePlace::LinkHigh if byte == 0 => BytePlace::End,
            BytePlace::LinkHigh => BytePlace::Number,
            BytePlace::Number => BytePlace::NumberHigh(byte),
            BytePlace::NumberHigh(_) => BytePlace::Line {
                quoted: false,
                remark: false,
            },
            BytePlace::Line { .. } if byte == 0 => BytePlace::Link,
            BytePlace::Line { quoted, remark } => BytePlace::Line {
                quoted: if byte == b'"' { !quoted } else { quoted },
                remark: remark || !quoted && byte == 0x8F,
            },
            BytePlace::End => BytePlace::End,
        }
    }
}
