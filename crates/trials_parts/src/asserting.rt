//! Assertions by calls: each costs a proof much less than one that is written out.
ghost use Rattle.std.specs.Prelude.{◌≡◌, true};

use pl_lists::Copied;
use std::alloc::{AllocError, Global};
use std::process::Abort;

/// Asserts that it holds; `what` is told where it does not.
pub(crate) fn holds(rt: &impl Abort, what: &str, it: bool)
    ensures { it ≡ true }
{
    assert!(rt; it, "{what}");
}

/// Whether there is a copy, and it is the same.
pub(crate) fn is_copied<T: Copied + PartialEq + Drop>(alloc: Global, it: &T) -> bool {
    match it.copy(alloc) {
        Ok(copy) => copy == *it,
        Err(_) => false,
    }
}
