//! Worked rows of a disk's layers, the drive, a till and the log. What a shop answers and leaves on its disk is in the
//! tables of `tests/rows`. Some need several crates at once: disks that are grown, written and cut, and then checked and
//! mended. Tests only: no program stands on this crate. They stand here and not in the crates that they test so that the
//! gate proves those once.
#![tactic(auto)]

#[cfg(test)]
mod blank_rows;
#[cfg(test)]
mod comparing;
#[cfg(test)]
mod creation_rows;
#[cfg(test)]
mod disks;
#[cfg(test)]
mod foreign_rows;
#[cfg(test)]
mod growth_rows;
#[cfg(test)]
mod layers;
#[cfg(test)]
mod logged;
#[cfg(test)]
mod number_rows;
#[cfg(test)]
mod promise_rows;
#[cfg(test)]
mod record_rows;
#[cfg(test)]
mod records;
#[cfg(test)]
mod till_rows;
