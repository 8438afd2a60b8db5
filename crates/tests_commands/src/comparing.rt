//! What tests compare. Each comparison is one call, so that a test is proved in little time however many it makes.
use std::fmt::Debug;
use std::process::Abort;

/// Checks that two values are equal in a row, and names the row if they differ.
pub(crate) fn same_at<T: PartialEq + Debug + Drop, L: Debug + Drop>(
    rt: &impl Abort,
    got: T,
    want: T,
    row: L,
) {
    assert_eq!(rt; got, want, "{row:?}");
}

/// Checks that two values are equal.
pub(crate) fn same<T: PartialEq + Debug + Drop>(rt: &impl Abort, got: T, want: T) {
    same_at(rt, got, want, "");
}

/// Checks that it holds.
pub(crate) fn holds<L: Debug + Drop>(rt: &impl Abort, it: bool, row: L) {
    same_at(rt, it, true, row);
}
