//! Which types may be shared among threads.

use crate::bells::{Bells, Listener};
use crate::busy::Busy;
use crate::held::Held;
use crate::noted::Noted;
use crate::part::Part;
use crate::role::{Acted, Role};
use crate::sight::{Sight, View};
use pl_lists::may_be_shared;

/// Shows that threads may share this crate's types, as long as this compiles.
pub fn shared_types() {
    may_be_shared::<Acted>();
    may_be_shared::<Bells>();
    may_be_shared::<Busy>();
    may_be_shared::<Held>();
    may_be_shared::<Listener>();
    may_be_shared::<Noted>();
    may_be_shared::<Part>();
    may_be_shared::<Role>();
    may_be_shared::<Sight>();
    may_be_shared::<View>();
}
