//! The measured end of an activity.
ghost use Rattle.std.specs.Prelude.{◌≡◌, OnOk, IfOk, Some, [], ◌∷◌};
ghost use Rattle.pl_plan.specs.Activities.{ended};
ghost use Rattle.pl_semantics.specs.PlanStates.{found};
ghost use Rattle.pl_update.specs.Changes.Changes.{measured_to, CanMeasure};
ghost use Rattle.pl_board.specs.Boards.{IsWatched};

use crate::watched::WatchedState;
use pl_lists::Copied;
use pl_plan::Activity;
use pl_points::{Ledger, Steps};
use pl_semantics::PlanState;
use std::alloc::{AllocError, Global};

// An activity alone, with its end measured.
fn ended_alone(alloc: Global, activity: &Activity, moment: u32) -> Result<Vec<Activity>, AllocError>
    ensures { IfOk result (λ all. all.items ≡ ended moment activity.now ∷ []) }
{
    let mut ended = activity.copy(alloc)?;
    ended.measured = Some(moment);
    let mut all = Vec::new(alloc);
    all.push(ended)?;
    Ok(all)
}

// The activity of this id alone, with its end measured.
fn ended(alloc: Global, s: &PlanState, id: u32, moment: u32) -> Result<Vec<Activity>, AllocError>
    requires { CanMeasure s.now id moment }
    ensures { IfOk result (λ all. (a : Activity) → found s.now id ≡ Some a → all.items ≡ ended moment a ∷ []) }
{
    match s.plan.get(id) {
        Some(activity) => ended_alone(alloc, activity, moment),
        None => unreachable!(),
    }
}

impl WatchedState {
    /// The activity of this id makes way for itself with its end measured.
    pub(crate) fn until<L: Ledger>(
        &mut self,
        alloc: Global,
        id: u32,
        moment: u32,
        steps: &mut Steps<L>,
    ) -> Result<(), AllocError>
        requires watched { IsWatched self.old }
        requires can { CanMeasure self.old.state id moment }
        ensures state { OnOk result (self.new.state ≡ measured_to id moment self.old.state) }
        ensures watched { OnOk result (IsWatched self.new) }
    {
        let placed = ended(alloc, &self.state, id, moment)?;
        self.replace(alloc, &[id], &placed, steps)?;
        Ok(())
    }
}
