//! Which types may be shared among threads.

use crate::level::Level;
use crate::reservation::{Effect, LevelChange};
use pl_blocks::BlockPoints;
use pl_lists::may_be_shared;
use pl_points::PlainPoints;

/// Shows that threads may share this crate's types, as long as this compiles.
pub fn shared_types() {
    may_be_shared::<Effect>();
    may_be_shared::<Level<BlockPoints>>();
    may_be_shared::<Level<PlainPoints>>();
    may_be_shared::<LevelChange>();
}
