//! Which types may be shared among threads.

use crate::prefer::Prefer;
use crate::score_fault::ScoreFault;
use crate::scored::Scored;
use pl_lists::may_be_shared;

/// Shows that threads may share this crate's types, as long as this compiles.
pub fn shared_types() {
    may_be_shared::<Prefer>();
    may_be_shared::<ScoreFault>();
    may_be_shared::<Scored>();
}
