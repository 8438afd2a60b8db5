//! The system as one value: files, names, locks, the input and the output, with one history of it all.
#![tactic(auto)]

mod host;
mod lent;
mod owned;
mod parts;

pub use host::Host;
pub use lent::Lent;
pub use owned::Owned;
pub use parts::{About, Access, Attributes, Entry, Failure, Found, Handle, Kind, Lock, Stream};
