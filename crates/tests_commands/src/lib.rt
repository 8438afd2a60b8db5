//! Rows of the commands that the built program can't show: jobs over bytes, outputs that note how they are called, and
//! a file that knows what it held. What the program prints is in the tables of `tests/rows`. Tests only: no program
//! stands on this crate.
#![tactic(auto)]

#[cfg(test)]
mod comparing;
#[cfg(test)]
mod host_rows;
#[cfg(test)]
mod images;
#[cfg(test)]
mod known_disk_rows;
#[cfg(test)]
#[cfg(test)]
mod run_rows;
