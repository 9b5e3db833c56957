use crate::conflict::{Code, Conflict};
use crate::set::ConflictSet;
use pl_lists::may_be_shared;

/// Conflicts and their sets may be shared between threads.
pub fn shared_types() {
    may_be_shared::<Code>();
    may_be_shared::<Conflict>();
    may_be_shared::<ConflictSet>();
}
