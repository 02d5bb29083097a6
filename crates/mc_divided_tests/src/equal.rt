use std::fmt::Debug;
use std::process::Abort;

/// The values are compared, and both shown where they differ.
pub fn is_equal<T: PartialEq + Debug>(rt: &impl Abort, got: &T, want: &T) {
    assert_eq!(rt; *got, *want);
}
