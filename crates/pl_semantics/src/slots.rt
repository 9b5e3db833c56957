//! The activities in the slots of a parent, and the orders of those slots.
ghost use Rattle.std.specs.Prelude.{◌≡◌, IfOk, IfSome, Some, find};
ghost use Rattle.std.specs.Option.{option_copied};
ghost use Rattle.pl_plan.specs.Activities.{activity_of};
ghost use Rattle.pl_plan.specs.Fitting.{fills};
ghost use Rattle.pl_semantics.specs.Whole.{IsWhole};
ghost use Rattle.pl_semantics.specs.PlanStates.{found};
ghost use Rattle.pl_semantics.specs.Links.{order_at, place_in};
ghost use Rattle.pl_semantics.specs.Slots.{filling, first_filling};

use crate::plan_state::PlanState;
use pl_model::Order;
use pl_plan::Activity;
use std::alloc::{AllocError, Global};

fn fills(parent: u32, slot: u32, a: &Activity) -> bool
    ensures { result ≡ fills parent slot a.now }
{
    match a.parent {
        Some(place) => place.0 == parent && place.1 == slot,
        None => false,
    }
}

fn filling(s: &PlanState, parent: u32, slot: u32, id: u32) -> Option<&Activity>
    ensures value { option_copied result ≡ filling parent slot (found s.now id) }
    ensures live { IfSome result (λ a. activity_of a.now.id s.now.plan.activities ≡ Some a.now) }
{
    match s.live(id) {
        Some(a) if fills(parent, slot, a) => Some(a),
        _ => None,
    }
}

fn first_filling<'s>(s: &'s PlanState, parent: u32, slot: u32, ids: &[u32]) -> Option<&'s Activity>
    ensures value { option_copied result ≡ first_filling s.now.plan.activities parent slot ids.now }
    ensures live { IfSome result (λ a. activity_of a.now.id s.now.plan.activities ≡ Some a.now) }
{
    for id in ids {
        if let Some(a) = filling(s, parent, slot, *id) {
            return Some(a);
        }
    }
    None
}

fn child_in<'s>(
    alloc: Global,
    s: &'s PlanState,
    parent: &Activity,
    slot: u32,
) -> Result<Option<&'s Activity>, AllocError>
    requires whole { IsWhole s.now }
    requires live { activity_of parent.now.id s.now.plan.activities ≡ Some parent.now }
    ensures value { IfOk result (λ a. option_copied a ≡ find (fills parent.now.id slot) s.now.plan.activities) }
    ensures live { IfOk result (λ o. IfSome o (λ a. activity_of a.now.id s.now.plan.activities ≡ Some a.now)) }
{
    let children = s.plan.children(alloc, parent.id)?;
    Ok(first_filling(s, parent.id, slot, children.as_slice()))
}

impl PlanState {
    /// The order of this index of the chosen alternative.
    pub fn order_at(&self, a: &Activity, index: u32) -> Option<&Order>
        ensures { option_copied result ≡ order_at self.now a.now index }
    {
        match a.detail {
            Some(detail) => match self.alternatives_of(a).get(detail as usize) {
                Some(alternative) => alternative.orders.as_slice().get(index as usize),
                None => None,
            },
            None => None,
        }
    }

    /// The activity in a slot of a live parent, or the parent.
    pub fn place_in<'s>(
        &'s self,
        alloc: Global,
        parent: &'s Activity,
        slot: Option<u32>,
    ) -> Result<Option<&'s Activity>, AllocError>
        requires whole { IsWhole self.now }
        requires live { activity_of parent.now.id self.now.plan.activities ≡ Some parent.now }
        ensures value { IfOk result (λ a. option_copied a ≡ place_in self.now parent.now slot) }
        ensures live { IfOk result (λ o. IfSome o (λ a. activity_of a.now.id self.now.plan.activities ≡ Some a.now)) }
    {
        match slot {
            Some(slot) => child_in(alloc, self, parent, slot),
            None => Ok(Some(parent)),
        }
    }
}
