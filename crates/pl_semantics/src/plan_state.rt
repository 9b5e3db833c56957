ghost use Rattle.std.specs.Prelude.{◌≡◌, ◌≤◌};
ghost use Rattle.pl_semantics.specs.PlanStates.{floor_of};

use crate::shared_model::SharedModel;
use pl_facts::{Bases, Goals};
use pl_lists::Copied;
use pl_plan::Plan;
use std::alloc::{AllocError, Global};

/// A plan with its goals and its telemetry, at the present moment.
#[derive(Drop)]
pub struct PlanState {
    pub model: SharedModel,
    pub plan: Plan,
    pub goals: Goals,
    pub bases: Bases,
    /// The present.
    pub moment: u32,
    /// What starts before this is committed.
    pub committed: u32,
    /// The id of the next activity that is made.
    pub next_id: u32,
    /// How many activities may be live.
    pub live_limit: u32,
}

impl PlanState {
    /// The least start that a repair may give.
    pub fn floor(&self) -> u32
        requires { self.now.moment ≤ 10000000 }
        ensures { result ≡ floor_of self.now }
    {
        (self.moment + 1).max(self.committed)
    }
}

impl Copied for PlanState {
    fn copy(&self, alloc: Global) -> Result<PlanState, AllocError> {
        Ok(PlanState {
            model: self.model.share()?,
            plan: self.plan.copy(alloc)?,
            goals: self.goals.copy(alloc)?,
            bases: self.bases.copy(alloc)?,
            moment: self.moment,
            committed: self.committed,
            next_id: self.next_id,
            live_limit: self.live_limit,
        })
    }
}
