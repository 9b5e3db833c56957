//! Which types may be shared among threads.

use crate::crew::Crew;
use crate::member::Member;
use pl_lists::may_be_shared;

fn may_be_moved<T: Send>() {}

/// Shows that threads may share a crew, and that a member may be moved to one, as long as this compiles.
pub fn shared_types() {
    may_be_shared::<Crew>();
    may_be_moved::<Member>();
}
