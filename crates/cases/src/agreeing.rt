// Looks that an answer is the one that is wanted, and tells both where it is not.
use std::fmt::Debug;
use std::process::Abort;

// A test that leaves the comparison to this function is much shorter to prove.
pub(crate) fn agree<T: Copy + PartialEq + Debug>(rt: &impl Abort, got: T, wanted: T) {
    assert!(rt; got == wanted, "{got:?} in place of {wanted:?}");
}
