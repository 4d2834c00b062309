//! Comparisons of two values. Each is one function, because the prover takes long over an `assert_eq!`.
use std::fmt::Debug;
use std::process::Abort;

/// Checks that two values are equal.
pub fn same<T: PartialEq + Debug>(rt: &impl Abort, found: &T, wanted: &T) {
    assert_eq!(rt; found, wanted);
}

/// Checks that two lists are equal.
pub fn same_list<T: PartialEq + Debug>(rt: &impl Abort, found: &[T], wanted: &[T]) {
    assert_eq!(rt; found, wanted);
}
