//! A machine in memory on which the whole program runs: its files and their names, with what of them is synced, a lock of another
//! program, standard input and output. The n-th call of a run fails, is cut short or is the last one before the program is killed
//! or power goes. It promises nothing: it is for tests.
#![tactic(auto)]

mod acts;
mod bytes;
mod calls;
mod disks;
mod files;
mod hosts;
mod inputs;
mod machines;
mod names;
mod open_files;
mod others;
mod plans;
mod power;
mod random;

pub use acts::{ACTS, Act, Acts, names_of};
pub use hosts::Host;
pub use inputs::GivenInput;
pub use machines::Machine;
pub use open_files::MachineFile;
pub use others::Record;
pub use plans::{Counted, Lock, Plan, Strike};
pub use random::Random;
