//! What the tests share.
use std::fmt::Display;
use std::process::Abort;

/// Fails the test where this does not hold of a case.
pub fn holds_for<D: Display>(rt: &impl Abort, is: bool, case: &D) {
    assert!(rt; is, "{case}");
}
