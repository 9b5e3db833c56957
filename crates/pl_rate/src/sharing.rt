//! Which types may be shared among threads.

use crate::outside::Outside;
use crate::rate::Rate;
use pl_lists::may_be_shared;

/// Shows that threads may share this crate's types, as long as this compiles.
pub fn shared_types() {
    may_be_shared::<Outside>();
    may_be_shared::<Rate>();
}
