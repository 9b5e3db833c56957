//! Which types may be shared among threads.

use crate::attempts::Attempt;
use crate::change::Change;
use crate::move_fault::MoveFault;
use crate::runs::RunCounts;
use crate::trial::Trial;
use pl_lists::may_be_shared;

/// Shows that threads may share this crate's types, as long as this compiles.
pub fn shared_types() {
    may_be_shared::<Attempt>();
    may_be_shared::<MoveFault>();
    may_be_shared::<RunCounts>();
    may_be_shared::<Change>();
    may_be_shared::<Trial>();
}
