//! Goals that are open again once the root is gone that serves them.
ghost use Rattle.std.specs.Prelude.{◌≡◌, ◌≤◌, [], ◌∷◌, false, IfOk, IfSome, IsTrue};
ghost use Rattle.pl_plan.specs.Serving.{served_in, serving};
ghost use Rattle.pl_semantics.specs.PlanStates.{floor_of};
ghost use Rattle.pl_semantics.specs.Whole.{IsWhole};
ghost use Rattle.pl_bounds.specs.Standing.{IsOpenWithout, IsServedBy};

use pl_facts::Goal;
use pl_plan::Activity;
use pl_semantics::PlanState;
use std::alloc::{AllocError, Global};

// The goal that an activity serves: a root's.
fn served_in(a: &Activity) -> Option<u32>
    ensures { result ≡ served_in a.now }
{
    match a.parent {
        Some(_) => None,
        None => a.goal,
    }
}

// Whether it is the only id.
fn is_only(ids: &[u32], id: u32) -> bool
    ensures { IsTrue result → ids.now ≡ id ∷ [] }
{
    ids.len() == 1 && ids[0] == id
}

// Whether it is not dropped, and can still be met.
fn is_sought(s: &PlanState, goal: &Goal) -> bool
    requires { IsWhole s.now }
    ensures stays { IsTrue result → goal.now.dropped ≡ false }
    ensures ahead { IsTrue result → floor_of s.now ≤ goal.now.latest }
{
    !goal.dropped && s.floor() <= goal.latest
}

// Whether no other root serves the goal of this number.
fn serves_alone(alloc: Global, s: &PlanState, id: u32, number: u32) -> Result<bool, AllocError>
    ensures { IfOk result (λ is_so. IsTrue is_so → serving number s.now.plan.activities ≡ id ∷ []) }
{
    let ids = s.plan.serving(alloc, number)?;
    Ok(is_only(ids.as_slice(), id))
}

/// The goal that the activity of this id serves, if there is one.
pub(crate) fn goal_of<'s>(s: &'s PlanState, id: u32) -> Option<&'s Goal>
    ensures { IfSome result (λ goal. IsServedBy s.now id goal.now) }
{
    let a = s.plan.get(id)?;
    let number = served_in(a)?;
    let goal = s.goals.get(number)?;
    Some(goal)
}

/// Whether the activity serves a goal that is open once it is gone.
pub(crate) fn is_open_without(alloc: Global, s: &PlanState, id: u32) -> Result<bool, AllocError>
    requires { IsWhole s.now }
    ensures { IfOk result (λ is_so. IsTrue is_so → IsOpenWithout s.now id) }
{
    match goal_of(s, id) {
        Some(goal) if is_sought(s, goal) => serves_alone(alloc, s, id, goal.number),
        _ => Ok(false),
    }
}
