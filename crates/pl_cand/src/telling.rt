//! Whether a move is tried for a conflict, as far as this is known without a list of all moves that are tried.
ghost use Rattle.std.specs.Prelude.{◌≡◌, ◌≤◌, ◌++◌, List, IfOk, false, length, Some};
ghost use Rattle.std.specs.List.{flat_map, list_any};
ghost use Rattle.pl_plan.specs.Activities.{activity_of};
ghost use Rattle.pl_plan.specs.declared.repair.RepairMove.{RepairMove};
ghost use Rattle.pl_semantics.specs.Whole.{IsWhole};
ghost use Rattle.pl_semantics.specs.PlanStates.{found, goal_at, of_found};
ghost use Rattle.pl_semantics.specs.Starts.{moves_of};
ghost use Rattle.pl_semantics.specs.Repairs.{for_goal, for_undetailed};
ghost use Rattle.pl_semantics.specs.LineRepairs.{for_high, for_low, for_over};
ghost use Rattle.pl_semantics.specs.Candidates.{same_move, tried_for};
ghost use Rattle.pl_cand.specs.ById.{moves_of_id};
ghost use Rattle.pl_cand.specs.declared.role.Role.TheVariants.{ChangesBelow};
ghost use Rattle.pl_cand.specs.Telling.{Tells, is_addition, players_of};

use crate::role::{Role, Way};
use crate::seeking::seek;
use crate::shifting::{is_for_goal, is_for_undetailed, is_move_of};
use crate::told::Told;
use pl_conflict::{Code, Conflict};
use pl_facts::Goal;
use pl_plan::{Activity, RepairMove};
use pl_semantics::PlanState;
use std::alloc::{AllocError, Global};

// What is known of a move, given whether it is one of the moves that are tried, where these are at most 256.
fn told_of_few(is: bool) -> Told
    ensures { (m : RepairMove) (tried : List RepairMove) → length tried ≤ 256 → list_any (same_move m) tried ≡ is → Tells tried m result }
{
    if is { Told::Early } else { Told::Untried }
}

fn told_for_goal(state: &PlanState, goal: &Goal, mv: &RepairMove) -> Told
    requires { IsWhole state.now }
    ensures { Tells (for_goal state.now goal.now) mv.now result }
{
    told_of_few(is_for_goal(state, goal, mv))
}

fn told_of_goal(state: &PlanState, number: u32, mv: &RepairMove) -> Told
    requires { IsWhole state.now }
    ensures { Tells (of_found (for_goal state.now) (goal_at state.now number)) mv.now result }
{
    match state.goals.get(number) {
        Some(goal) => told_for_goal(state, goal, mv),
        None => Told::Untried,
    }
}

fn told_for_moves(state: &PlanState, a: &Activity, mv: &RepairMove) -> Told
    requires whole { IsWhole state.now }
    requires live { activity_of a.now.id state.now.plan.activities ≡ Some a.now }
    ensures { Tells (moves_of state.now a.now) mv.now result }
{
    told_of_few(is_move_of(state, a, mv))
}

fn told_of_moves(state: &PlanState, id: u32, mv: &RepairMove) -> Told
    requires { IsWhole state.now }
    ensures { Tells (moves_of_id state.now id) mv.now result }
{
    match state.live(id) {
        Some(a) => told_for_moves(state, a, mv),
        None => Told::Untried,
    }
}

fn told_for_undetailed(state: &PlanState, a: &Activity, mv: &RepairMove) -> Told
    requires whole { IsWhole state.now }
    requires live { activity_of a.now.id state.now.plan.activities ≡ Some a.now }
    ensures { Tells (for_undetailed state.now a.now) mv.now result }
{
    told_of_few(is_for_undetailed(state, a, mv))
}

fn told_of_undetailed(state: &PlanState, id: u32, mv: &RepairMove) -> Told
    requires { IsWhole state.now }
    ensures { Tells (of_found (for_undetailed state.now) (found state.now id)) mv.now result }
{
    match state.live(id) {
        Some(a) => told_for_undetailed(state, a, mv),
        None => Told::Untried,
    }
}

fn is_addition(mv: &RepairMove) -> bool
    ensures { result ≡ is_addition mv.now }
{
    match mv {
        RepairMove::Add { .. } => true,
        _ => false,
    }
}

// What is known of a move for a conflict of a level, by the moves of the activities that change the level in this way before the
// end of the span. Of an addition nothing is known, since it may be one of the additions that help.
fn told_of_level(
    alloc: Global,
    state: &PlanState,
    k: &Conflict,
    way: Way,
    mv: &RepairMove,
) -> Result<Told, AllocError>
    requires { IsWhole state.now }
    ensures { IfOk result (λ t. (help : List RepairMove) → length help ≤ 64 → (is_addition mv.now ≡ false → list_any (same_move mv.now) help ≡ false) → Tells (help ++ flat_map (moves_of state.now) (players_of state.now k.now.subject (ChangesBelow k.now.b way))) mv.now t) }
{
    if is_addition(mv) {
        return Ok(Told::Unknown);
    }
    let told = seek(alloc, state, k.subject, Role::ChangesBelow(k.b, way), mv)?;
    Ok(told)
}

fn told_over(
    alloc: Global,
    state: &PlanState,
    k: &Conflict,
    mv: &RepairMove,
) -> Result<Told, AllocError>
    requires { IsWhole state.now }
    ensures { IfOk result (λ t. Tells (for_over state.now k.now.subject k.now.a k.now.b) mv.now t) }
{
    let told = seek(alloc, state, k.subject, Role::Uses(k.a, k.b), mv)?;
    Ok(told)
}

fn told_low(
    alloc: Global,
    state: &PlanState,
    k: &Conflict,
    mv: &RepairMove,
) -> Result<Told, AllocError>
    requires { IsWhole state.now }
    ensures { IfOk result (λ t. Tells (for_low state.now k.now.subject k.now.a k.now.b) mv.now t) }
{
    let told = told_of_level(alloc, state, k, Way::Down, mv)?;
    Ok(told)
}

fn told_high(
    alloc: Global,
    state: &PlanState,
    k: &Conflict,
    mv: &RepairMove,
) -> Result<Told, AllocError>
    requires { IsWhole state.now }
    ensures { IfOk result (λ t. Tells (for_high state.now k.now.subject k.now.a k.now.b) mv.now t) }
{
    let told = told_of_level(alloc, state, k, Way::Up, mv)?;
    Ok(told)
}

/// What is known of a move without a list of all moves that are tried for the conflict.
pub(crate) fn told(
    alloc: Global,
    state: &PlanState,
    k: &Conflict,
    mv: &RepairMove,
) -> Result<Told, AllocError>
    requires { IsWhole state.now }
    ensures { IfOk result (λ t. Tells (tried_for state.now k.now k.now.code) mv.now t) }
{
    match k.code {
        Code::OpenGoal => Ok(told_of_goal(state, k.subject, mv)),
        Code::OffGoal => Ok(told_of_moves(state, k.subject, mv)),
        Code::Late => Ok(told_of_moves(state, k.subject, mv)),
        Code::Undetailed => Ok(told_of_undetailed(state, k.subject, mv)),
        Code::Over => told_over(alloc, state, k, mv),
        Code::Low => told_low(alloc, state, k, mv),
        Code::High => told_high(alloc, state, k, mv),
        _ => Ok(Told::Unknown),
    }
}
