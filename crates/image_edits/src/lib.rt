//! Changes of an image, all or nothing, and images that are made anew.
#![tactic(auto)]

mod changing;
mod containers;
mod copying;
mod cvts;
mod edits;
mod effect;
mod new_disks;
mod salvaging;
mod trimming;

pub use changing::change_end;
pub use containers::{CutFile, cut_in, has_no_file};
pub use copying::do_copying;
pub use cvts::is_no_cvt;
pub use edits::do_edit;
pub use effect::Effect;
pub use new_disks::do_new;
pub use salvaging::do_salvaging;
pub use trimming::{do_trim, trim_run};
