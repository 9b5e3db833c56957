//! Assertions by calls: each costs a proof much less than one that is written out.
ghost use Rattle.std.specs.Prelude.{◌≡◌, true};

use std::process::Abort;

/// Asserts that it holds; `what` is told where it does not.
pub fn holds(rt: &impl Abort, what: &str, it: bool)
    ensures { it ≡ true }
{
    assert!(rt; it, "{what}");
}
