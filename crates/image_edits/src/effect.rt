//! What a change does with the image that comes of it.

/// What a change does with the image that comes of it.
#[derive(Clone, Copy, Debug, PartialEq, Eq)]
pub enum Effect {
    /// It is kept in the place of the other.
    Written,
    /// Only the change's lines are printed, and the image stays as it is.
    Printed,
}
