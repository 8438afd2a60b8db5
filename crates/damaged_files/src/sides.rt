//! Side sectors of relative files, built anew from the files' chains.
pub(crate) mod candidates;
pub(crate) mod comparing;
pub(crate) mod judging;
pub(crate) mod naming;
pub(crate) mod planning;
pub(crate) mod readable;
pub(crate) mod rebuilding;
pub(crate) mod sectors;
pub(crate) mod taken;
pub(crate) mod writing;
