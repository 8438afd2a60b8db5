//! The ranges of the numbers in messages and on cards.

/// The most that a number or a quantity may be.
pub(crate) const MOST: u32 = 999_999_999;

/// The last item.
pub(crate) const LAST_ITEM: u32 = 65535;

/// The last till.
pub(crate) const LAST_TILL: u8 = 64;
