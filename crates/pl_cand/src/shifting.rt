//! Whether a move is one of those that are tried for an activity or for a goal. It is answered without listing these moves.
ghost use Rattle.std.specs.Prelude.{◌≡◌, pos, Some};
ghost use Rattle.std.specs.Int.{int_max, int_min};
ghost use Rattle.std.specs.List.{list_any};
ghost use Rattle.std.specs.Ordering.{int_eq};
ghost use Rattle.pl_plan.specs.Activities.{activity_of};
ghost use Rattle.pl_plan.specs.declared.repair.RepairMove.TheVariants.{Shift};
ghost use Rattle.pl_semantics.specs.Whole.{IsWhole};
ghost use Rattle.pl_semantics.specs.PlanStates.{of_found, served_by};
ghost use Rattle.pl_semantics.specs.Starts.{above_it, floor_at, last_of, places_of, shifts_of, spread, window_of};
ghost use Rattle.pl_semantics.specs.Candidates.{same_move};
ghost use Rattle.pl_cand.specs.Telling.{is_for_goal, is_for_undetailed, is_move_of, is_shift_of};

use crate::reading::{checked_alternatives, floor, from_floor, last, to_last};
use crate::repairs::{above_it, served_by};
use crate::starts::may_start;
use crate::strides::is_step;
use pl_facts::Goal;
use pl_plan::{Activity, RepairMove};
use pl_semantics::PlanState;

// Whether a start is tried in a goal's window, from the floor on.
fn is_in_window(state: &PlanState, goal: &Goal, start: i64) -> bool
    requires { IsWhole state.now }
    ensures { result ≡ list_any (int_eq start) (window_of state.now (Some goal.now)) }
{
    let earliest = from_floor(state, i64::from(goal.earliest));
    is_step(earliest, i64::from(goal.latest), start)
}

// Whether a start is tried in the window of the goal that an activity serves, or else from the floor to the last start.
fn is_in_its_window(state: &PlanState, a: &Activity, start: i64) -> bool
    requires { IsWhole state.now }
    ensures { result ≡ list_any (int_eq start) (window_of state.now (served_by state.now a.now)) }
{
    match served_by(state, a) {
        Some(goal) => is_in_window(state, goal, start),
        None => is_step(floor(state), last(state), start),
    }
}

// Whether a start is tried for an activity.
fn is_place(state: &PlanState, a: &Activity, start: i64) -> bool
    requires { IsWhole state.now }
    ensures { result ≡ list_any (int_eq start) (places_of state.now a.now) }
{
    start == floor(state) || is_in_its_window(state, a, start)
}

fn is_shift_of(state: &PlanState, a: &Activity, id: u32, start: u32) -> bool
    requires { IsWhole state.now }
    ensures { result ≡ is_shift_of state.now a.now id start }
{
    id == a.id && may_start(state, start) && is_place(state, a, i64::from(start))
}

// Whether the shift of the activity of this id to this start is one of those of the root above `a`, if `a` is no root itself.
#[tactic(auto, using(crate::proofs::Starting::shift_stands))]
fn is_shift_above(state: &PlanState, a: &Activity, id: u32, start: u32) -> bool
    requires whole { IsWhole state.now }
    requires live { activity_of a.now.id state.now.plan.activities ≡ Some a.now }
    ensures { result ≡ list_any (same_move (Shift id start)) (of_found (shifts_of state.now) (above_it state.now a.now)) }
{
    match above_it(state, a) {
        Some(root) => is_shift_of(state, root, id, start),
        None => false,
    }
}

/// Whether a move is a shift of a live activity or of its root, or the deletion of its root.
pub(crate) fn is_move_of(state: &PlanState, a: &Activity, mv: &RepairMove) -> bool
    requires whole { IsWhole state.now }
    requires live { activity_of a.now.id state.now.plan.activities ≡ Some a.now }
    ensures { result ≡ is_move_of state.now a.now mv.now }
{
    match *mv {
        RepairMove::Shift { id, start } => {
            is_shift_of(state, a, id, start) || is_shift_above(state, a, id, start)
        }
        RepairMove::Delete { id } => id == state.plan.root(a.id),
        _ => false,
    }
}

// Whether a start is tried for an activity that is to serve a goal.
fn is_serving(state: &PlanState, goal: &Goal, start: i64) -> bool
    requires { IsWhole state.now }
    ensures { result ≡ list_any (int_eq start) (spread (int_max (pos goal.now.earliest) (floor_at state.now)) (int_min (pos goal.now.latest) (last_of state.now))) }
{
    let earliest = from_floor(state, i64::from(goal.earliest));
    let latest = to_last(state, i64::from(goal.latest));
    is_step(earliest, latest, start)
}

/// Whether a move adds an activity that serves the goal, or drops the goal.
pub(crate) fn is_for_goal(state: &PlanState, goal: &Goal, mv: &RepairMove) -> bool
    requires { IsWhole state.now }
    ensures { result ≡ is_for_goal state.now goal.now mv.now }
{
    match *mv {
        RepairMove::Add {
            kind,
            start,
            goal: served,
        } => kind == goal.kind
            && served == Some(goal.number)
            && may_start(state, start)
            && is_serving(state, goal, i64::from(start)),
        RepairMove::Drop { goal: number } => number == goal.number,
        _ => false,
    }
}

/// Whether a move chooses an alternative of a live activity, or deletes its root.
pub(crate) fn is_for_undetailed(state: &PlanState, a: &Activity, mv: &RepairMove) -> bool
    requires whole { IsWhole state.now }
    requires live { activity_of a.now.id state.now.plan.activities ≡ Some a.now }
    ensures { result ≡ is_for_undetailed state.now a.now mv.now }
{
    match *mv {
        RepairMove::Detail { id, alternative } => id == a.id
            && (alternative as usize) < checked_alternatives(state, a).len(),
        RepairMove::Delete { id } => id == state.plan.root(a.id),
        _ => false,
    }
}
