//! Which types may be shared among threads.

use crate::plan::{Pass, SharedPlan};
use pl_lists::may_be_shared;

fn may_be_moved<T: Send>() {}

/// Shows that threads may share this crate's types, and that a pass may be moved to one, as long as this compiles.
pub fn shared_types() {
    may_be_shared::<SharedPlan>();
    may_be_moved::<Pass>();
}
