//! Which types may be shared among threads.

use crate::preface::Preface;
use crate::problem::Problem;
use crate::refusal::Refusal;
use pl_lists::may_be_shared;
use pl_prefs::Prefer;
use pl_rate::Rate;

/// Shows that threads may share this crate's types, as long as this compiles.
pub fn shared_types() {
    may_be_shared::<Preface<Rate>>();
    may_be_shared::<Preface<Prefer>>();
    may_be_shared::<Problem>();
    may_be_shared::<Refusal>();
}
