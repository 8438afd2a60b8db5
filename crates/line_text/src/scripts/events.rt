//! The event in a line of a script: a message, and its reset if it has one.
use arrayvec::ArrayVec;

/// A reset of the power, and the recoveries that are stopped before the whole one.
#[derive(Drop)]
pub struct Cut {
    /// Power fails after this many sector writes of the message, or after its last one, before the answer is read.
    pub after: u32,
    /// The listed recoveries: each opening is stopped after this many of its sector writes.
    pub recoveries: ArrayVec<u32, 8>,
}

/// A message, and the reset in it.
#[derive(Drop)]
pub struct Event<'a> {
    /// The message: any bytes.
    pub message: &'a [u8],
    /// The reset, if power fails in this message.
    pub cut: Option<Cut>,
}
