//! The two relative files of a shop: their names, and how long their records are.

/// The name of the file that has a card for each item.
pub const STOCK_NAME: &[u8] = b"STOCK";

/// The length of its records, in bytes.
pub const STOCK_LENGTH: u8 = 18;

/// The name of the file that has a card for each till.
pub const REQUESTS_NAME: &[u8] = b"REQUESTS";

/// The length of its records, in bytes.
pub const REQUESTS_LENGTH: u8 = 127;
