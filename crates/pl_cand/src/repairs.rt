//! The moves of an activity: its shifts, those of its root, and the deletion of the root.
ghost use Rattle.std.specs.Prelude.{◌≡◌, ◌++◌, IfOk, OnOk, Some};
ghost use Rattle.std.specs.Option.{option_copied};
ghost use Rattle.pl_plan.specs.Activities.{activity_of};
ghost use Rattle.pl_semantics.specs.Whole.{IsWhole};
ghost use Rattle.pl_semantics.specs.PlanStates.{of_found, served_by};
ghost use Rattle.pl_semantics.specs.Starts.{above_it, delete_root, moves_of, places_of, shifts_of, window_of};

use crate::reading::{floor, from_floor, last};
use crate::starts::add_shifts;
use crate::strides::spread;
use pl_facts::Goal;
use pl_plan::{Activity, RepairMove};
use pl_semantics::PlanState;
use std::alloc::{AllocError, Global};

/// The goal that an activity serves.
pub(crate) fn served_by<'s>(state: &'s PlanState, a: &Activity) -> Option<&'s Goal>
    ensures { option_copied result ≡ served_by state.now a.now }
{
    match (a.parent, a.goal) {
        (None, Some(number)) => state.goals.get(number),
        _ => None,
    }
}

// The starts that are tried in a goal's window, from the floor on.
fn window_of(alloc: Global, state: &PlanState, goal: &Goal) -> Result<Vec<i64>, AllocError>
    requires { IsWhole state.now }
    ensures { IfOk result (λ all. all.items ≡ window_of state.now (Some goal.now)) }
{
    let earliest = from_floor(state, i64::from(goal.earliest));
    spread(alloc, earliest, i64::from(goal.latest))
}

// The starts that are tried in the window of the goal that an activity serves, or else from the floor to the last start.
fn window(alloc: Global, state: &PlanState, a: &Activity) -> Result<Vec<i64>, AllocError>
    requires { IsWhole state.now }
    ensures { IfOk result (λ all. all.items ≡ window_of state.now (served_by state.now a.now)) }
{
    match served_by(state, a) {
        Some(goal) => window_of(alloc, state, goal),
        None => spread(alloc, floor(state), last(state)),
    }
}

// The most starts that are tried: the floor, and sixteen of a window.
const STARTS: usize = 17;

/// The starts that are tried for an activity.
pub(crate) fn places(alloc: Global, state: &PlanState, a: &Activity) -> Result<Vec<i64>, AllocError>
    requires { IsWhole state.now }
    ensures { IfOk result (λ all. all.items ≡ places_of state.now a.now) }
{
    let window = window(alloc, state, a)?;
    let mut all = Vec::with_capacity(alloc, STARTS)?;
    all.push(floor(state))?;
    all.extend_from_slice(window.as_slice())?;
    Ok(all)
}

fn add_shifts_of(
    alloc: Global,
    state: &PlanState,
    a: &Activity,
    out: &mut Vec<RepairMove>,
) -> Result<(), AllocError>
    requires { IsWhole state.now }
    ensures { OnOk result (out.new.items ≡ out.old.items ++ shifts_of state.now a.now) }
{
    let starts = places(alloc, state, a)?;
    add_shifts(state, a.id, starts.as_slice(), out)?;
    Ok(())
}

/// The root of an activity's tree, if the activity is not the root itself.
pub(crate) fn above_it<'s>(state: &'s PlanState, a: &Activity) -> Option<&'s Activity>
    requires whole { IsWhole state.now }
    requires live { activity_of a.now.id state.now.plan.activities ≡ Some a.now }
    ensures { option_copied result ≡ above_it state.now a.now }
{
    match a.parent {
        Some(_) => state.plan.get(state.plan.root(a.id)),
        None => None,
    }
}

fn add_shifts_above(
    alloc: Global,
    state: &PlanState,
    a: &Activity,
    out: &mut Vec<RepairMove>,
) -> Result<(), AllocError>
    requires whole { IsWhole state.now }
    requires live { activity_of a.now.id state.now.plan.activities ≡ Some a.now }
    ensures { OnOk result (out.new.items ≡ out.old.items ++ of_found (shifts_of state.now) (above_it state.now a.now)) }
{
    match above_it(state, a) {
        Some(root) => add_shifts_of(alloc, state, root, out),
        None => Ok(()),
    }
}

/// Appends the deletion of the root of a live activity's tree.
pub(crate) fn add_deletion(
    state: &PlanState,
    a: &Activity,
    out: &mut Vec<RepairMove>,
) -> Result<(), AllocError>
    requires whole { IsWhole state.now }
    requires live { activity_of a.now.id state.now.plan.activities ≡ Some a.now }
    ensures { OnOk result (out.new.items ≡ out.old.items ++ delete_root state.now a.now) }
{
    out.push(RepairMove::Delete {
        id: state.plan.root(a.id),
    })?;
    Ok(())
}

/// Appends the moves of a live activity: its shifts, those of its root if it is no root itself, and the deletion of the root.
#[tactic(auto, unfolding(pl_semantics::specs::Starts::moves_of))]
pub(crate) fn add_moves(
    alloc: Global,
    state: &PlanState,
    a: &Activity,
    out: &mut Vec<RepairMove>,
) -> Result<(), AllocError>
    requires whole { IsWhole state.now }
    requires live { activity_of a.now.id state.now.plan.activities ≡ Some a.now }
    ensures { OnOk result (out.new.items ≡ out.old.items ++ moves_of state.now a.now) }
{
    add_shifts_of(alloc, state, a, out)?;
    add_shifts_above(alloc, state, a, out)?;
    add_deletion(state, a, out)?;
    Ok(())
}
