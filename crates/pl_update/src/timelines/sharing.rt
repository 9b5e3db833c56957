//! Which types may be shared among threads.

use crate::timelines::line::Line;
use crate::timelines::lines::Lines;
use pl_lists::may_be_shared;

/// Shows that threads may share this crate's types, as long as this compiles.
pub fn shared_types() {
    may_be_shared::<Line>();
    may_be_shared::<Lines>();
}
