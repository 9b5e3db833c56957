//! Which types may be shared among threads.

use crate::capacity::Capacity;
use crate::reservation::Use;
use pl_blocks::BlockPoints;
use pl_lists::may_be_shared;
use pl_points::PlainPoints;

/// Shows that threads may share this crate's types, as long as this compiles.
pub fn shared_types() {
    may_be_shared::<Capacity<BlockPoints>>();
    may_be_shared::<Capacity<PlainPoints>>();
    may_be_shared::<Use>();
}
