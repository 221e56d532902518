//! What tests claim. A claim that doesn't hold ends its test. (The text of a failed claim takes long to prove: so it is proved here once, and not at each
//! claim.)
ghost use Rattle.std.specs.Prelude.{◌≡◌, true};

use std::fmt::Debug;
use std::process::Abort;

/// That something is true.
pub(crate) fn holds(rt: &impl Abort, yes: bool)
    ensures { yes ≡ true }
{
    assert!(rt; yes);
}

/// That a value is the one that is wanted.
pub(crate) fn equal<T: PartialEq + Debug>(rt: &impl Abort, found: &T, wanted: &T) {
    assert_eq!(rt; found, wanted);
}

/// That the value of a case is the one that is wanted.
pub(crate) fn equal_at<T: PartialEq + Debug, C: Debug>(
    rt: &impl Abort,
    found: &T,
    wanted: &T,
    case: &C,
) {
    assert_eq!(rt; found, wanted, "{case:?}");
}

/// That these are the items that are wanted.
pub(crate) fn equal_items<T: PartialEq + Debug>(rt: &impl Abort, found: &[T], wanted: &[T]) {
    assert_eq!(rt; found, wanted);
}

/// That this is the text that is wanted.
pub(crate) fn equal_text(rt: &impl Abort, found: &str, wanted: &str) {
    assert_eq!(rt; found, wanted);
}
