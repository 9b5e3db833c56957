//! Which types may be shared among threads.

use crate::choice::Choice;
use crate::machine::Machine;
use crate::repaired::Repaired;
use crate::stop::Stop;
use pl_lists::may_be_shared;

/// Shows that threads may share this crate's types, as long as this compiles.
pub fn shared_types() {
    may_be_shared::<Choice>();
    may_be_shared::<Machine>();
    may_be_shared::<Repaired>();
    may_be_shared::<Stop>();
}
