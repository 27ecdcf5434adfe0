// What a test expects.
use std::fmt::Debug;
use std::process::Abort;

/// Stops the test of a case where something else is found than what is wanted.
pub fn expect_same<T: PartialEq + Debug, C: Debug>(
    rt: &impl Abort,
    found: &T,
    wanted: &T,
    case: &C,
) {
    if *found != *wanted {
        panic!(rt; "{case:?}: {found:?} is found, {wanted:?} is wanted");
    }
}
