//! Which types may be shared among threads.

use crate::demand::{Asked, Demand};
use crate::plan_state::PlanState;
use crate::refusal::Refusal;
use crate::shared_model::SharedModel;
use pl_lists::may_be_shared;

/// Shows that threads may share this crate's types, as long as this compiles.
pub fn shared_types() {
    may_be_shared::<Asked>();
    may_be_shared::<Demand>();
    may_be_shared::<PlanState>();
    may_be_shared::<Refusal>();
    may_be_shared::<SharedModel>();
}
