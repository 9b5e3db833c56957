//! Assertions by calls: each costs a proof much less than one that is written out.
ghost use Rattle.std.specs.Prelude.{◌≡◌, true};

use std::alloc::AllocError;
use std::process::Abort;

/// Asserts that it holds; `what` is told where it does not.
pub fn holds(rt: &impl Abort, what: &str, it: bool)
    ensures { it ≡ true }
{
    assert!(rt; it, "{what}");
}

/// Whether what was printed is this text. There is none where memory is wanting.
pub fn is_printed(printed: Result<String, AllocError>, wanted: &str) -> Option<bool> {
    match printed {
        Ok(text) => Some(text.as_str() == wanted),
        Err(_) => None,
    }
}
