//! The plan that a feeder, a planner and an executive share: the calls of [`pl_locked`] that take the author of an entry from the role.
#![tactic(auto)]

pub use pl_acts::{Acted, Part, Role, Sight, View};
pub use pl_locked::{Pass, SharedPlan, shared_types, work};
