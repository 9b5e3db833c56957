//! Several planners, an executive and a feeder on one plan, each with a name of its own.

use crate::member::Member;
use pl_locked::SharedPlan;

/// The plan of a crew.
#[derive(Drop)]
pub struct Crew {
    pub(crate) plan: SharedPlan,
}

/// A crew, with its feeder, and with its executive and then its planners by number.
#[derive(Drop)]
pub struct Hired {
    pub crew: Crew,
    pub feeder: Member,
    pub members: Vec<Member>,
}
