//! What a plan state tells of an activity and of a goal.
ghost use Rattle.std.specs.Prelude.{◌≡◌, IfSome, Some, slice_get};
ghost use Rattle.std.specs.Option.{option_copied};
ghost use Rattle.pl_model.specs.Checked.{params_of};
ghost use Rattle.pl_plan.specs.Activities.{activity_of};
ghost use Rattle.pl_plan.specs.Fitting.{kind_of, chosen_slots};
ghost use Rattle.pl_plan.specs.Values.{bindings_in};
ghost use Rattle.pl_semantics.specs.PlanStates.{found, is_open};
ghost use Rattle.pl_semantics.specs.Activities.{bindings_of};
ghost use Rattle.pl_semantics.specs.Moves.{alternatives_at};

use crate::plan_state::PlanState;
use pl_facts::Goal;
use pl_model::{Alternative, Expr, Kind, Param, Slot};
use pl_plan::Activity;

impl PlanState {
    /// The live activity of this id.
    pub fn live(&self, id: u32) -> Option<&Activity>
        ensures value { option_copied result ≡ found self.now id }
        ensures live { IfSome result (λ a. activity_of a.now.id self.now.plan.activities ≡ Some a.now) }
    {
        self.plan.get(id)
    }

    /// The kind of an activity.
    pub fn kind_of(&self, a: &Activity) -> Option<&Kind>
        ensures { option_copied result ≡ kind_of self.now.model a.now }
    {
        self.model.get().kinds.as_slice().get(a.kind as usize)
    }

    /// The parameters of its kind.
    pub fn params_of(&self, a: &Activity) -> &[Param]
        ensures { result.now ≡ params_of (kind_of self.now.model a.now) }
    {
        match self.kind_of(a) {
            Some(kind) => kind.params.as_slice(),
            None => &[],
        }
    }

    /// The alternatives of its kind.
    pub fn alternatives_of(&self, a: &Activity) -> &[Alternative]
        ensures { result.now ≡ alternatives_at self.now a.now }
    {
        match self.kind_of(a) {
            Some(kind) => kind.alternatives.as_slice(),
            None => &[],
        }
    }

    // The slots of the chosen alternative.
    fn chosen_slots(&self, a: &Activity) -> &[Slot]
        ensures { result.now ≡ chosen_slots self.now.model a.now }
    {
        match a.detail {
            Some(alternative) => match self.alternatives_of(a).get(alternative as usize) {
                Some(alternative) => alternative.slots.as_slice(),
                None => &[],
            },
            None => &[],
        }
    }

    fn slot_bindings(&self, a: &Activity, slot: u32) -> &[(u8, Expr)]
        ensures { result.now ≡ bindings_in (slice_get (chosen_slots self.now.model a.now) slot) }
    {
        match self.chosen_slots(a).get(slot as usize) {
            Some(slot) => slot.bindings.as_slice(),
            None => &[],
        }
    }

    /// The expressions that the slot of an activity binds to its parameters.
    pub fn bindings_of(&self, a: &Activity) -> &[(u8, Expr)]
        ensures { result.now ≡ bindings_of self.now a.now }
    {
        match a.parent {
            Some((parent, slot)) => match self.plan.get(parent) {
                Some(above) => self.slot_bindings(above, slot),
                None => &[],
            },
            None => &[],
        }
    }

    /// Whether the goal is neither dropped nor served.
    pub fn is_open(&self, goal: &Goal) -> bool
        ensures { result ≡ is_open self.now goal.now }
    {
        !goal.dropped && !self.plan.is_served(goal.number)
    }
}
