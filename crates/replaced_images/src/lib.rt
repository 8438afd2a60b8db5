//! An image that takes the place of another, all or nothing.
#![tactic(auto)]

mod replacing;

pub use replacing::{Names, land, replace};
