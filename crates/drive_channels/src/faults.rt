//! The one error of a drive.

/// The device has failed, in this call or in an earlier one of the same drive. Only a new drive can read what an
/// earlier call left on the disk.
#[derive(Clone, Copy, Debug, PartialEq, Eq)]
pub struct Dead;
