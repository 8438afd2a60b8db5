//! What can go wrong with a device, and with an image that is loaded.
ghost use Rattle.std.specs.Prelude.{◌≡◌};

use thiserror::Error;

/// The device failed: a sector was not read, or perhaps not written.
#[derive(Clone, Copy, Debug, PartialEq, Eq, Error)]
#[error("device fault")]
pub struct DeviceFault;

/// Why an image was not loaded, or a disk not made.
#[derive(Clone, Copy, Debug, PartialEq, Eq, Error)]
pub enum ImageFault {
    /// The image doesn't have 174,848 bytes.
    #[error("the image has another size than 174848 bytes")]
    Size,
    /// The memory for the disk was refused.
    #[error("no memory for the image")]
    NoMemory,
}

impl ImageFault {
    ghost use Rattle.d64_image.specs.Faults.{number_of};

    /// The fault's number: 1 for `Size`, 2 for `NoMemory`.
    pub fn number(&self) -> u8
        ensures { result ≡ number_of self.now }
    {
        match self {
            ImageFault::Size => 1,
            ImageFault::NoMemory => 2,
        }
    }
}
