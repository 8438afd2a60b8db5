//! Every life of a shop over a log: services of lines, in any of which power may go, have one list of lines.
#![tactic(auto)]

mod laws;

pub use laws::one_list_over_a_log;
