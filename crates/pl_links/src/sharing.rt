//! Which types may be shared among threads.

use crate::broken::Broken;
use crate::changes::Changes;
use crate::links::Links;
use crate::placed::Placed;
use pl_lists::may_be_shared;

/// Shows that threads may share this crate's types, as long as this compiles.
pub fn shared_types() {
    may_be_shared::<Placed>();
    may_be_shared::<Broken>();
    may_be_shared::<Changes>();
    may_be_shared::<Links>();
}
