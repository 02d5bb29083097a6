// What the tests compare.

ghost use Rattle.std.specs.Prelude.{◌≡◌};

use std::fmt::Debug;
use std::process::Abort;

/// The values are compared, and both shown where they differ.
pub fn is_equal<T: PartialEq + Debug>(rt: &impl Abort, got: &T, want: &T) {
    assert_eq!(rt; *got, *want);
}

/// The count is the wanted one, and a later call may rest on that.
pub fn is_count(rt: &impl Abort, got: usize, want: usize)
    ensures { got ≡ want }
{
    assert!(rt; got == want, "{got} in place of {want}");
}
