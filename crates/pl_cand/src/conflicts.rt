//! The candidates for a conflict.
ghost use Rattle.std.specs.Prelude.{◌≡◌, ◌++◌, IfOk, OnOk, Some, false};
ghost use Rattle.pl_plan.specs.Activities.{activity_of};
ghost use Rattle.pl_semantics.specs.Whole.{IsWhole};
ghost use Rattle.pl_semantics.specs.PlanStates.{found, goal_at, of_found};
ghost use Rattle.pl_semantics.specs.Repairs.{for_goal};
ghost use Rattle.pl_semantics.specs.Candidates.{candidates_of, tried_for};
ghost use Rattle.pl_cand.specs.Tried.{tried_with};

use crate::activities::{for_bad_value, for_overrun, for_undetailed, for_unset};
use crate::cuts::cut;
use crate::goals::for_goal;
use crate::links::for_temporal;
use crate::orders::for_linked;
use crate::repairs::add_moves;
use crate::timelines::{for_bad_step, for_high, for_low, for_must, for_over};
use pl_board::Board;
use pl_conflict::{Code, Conflict};
use pl_plan::{Activity, RepairMove};
use pl_semantics::PlanState;
use std::alloc::{AllocError, Global};

fn for_open_goal(
    alloc: Global,
    state: &PlanState,
    number: u32,
    out: &mut Vec<RepairMove>,
) -> Result<(), AllocError>
    requires { IsWhole state.now }
    ensures { OnOk result (out.new.items ≡ out.old.items ++ of_found (for_goal state.now) (goal_at state.now number)) }
{
    match state.goals.get(number) {
        Some(goal) => for_goal(alloc, state, goal, out),
        None => Ok(()),
    }
}

// Appends all that is tried for a conflict of an activity.
fn for_activity(
    alloc: Global,
    state: &PlanState,
    a: &Activity,
    k: &Conflict,
    out: &mut Vec<RepairMove>,
) -> Result<(), AllocError>
    requires whole { IsWhole state.now }
    requires live { activity_of a.now.id state.now.plan.activities ≡ Some a.now }
    ensures { OnOk result (out.new.items ≡ out.old.items ++ tried_with state.now a.now k.now k.now.code) }
{
    match k.code {
        Code::OffGoal => add_moves(alloc, state, a, out),
        Code::Late => add_moves(alloc, state, a, out),
        Code::Unset => for_unset(alloc, state, a, k.detail, out),
        Code::BadValue => for_bad_value(alloc, state, a, out),
        Code::Undetailed => for_undetailed(state, a, out),
        Code::Overrun => for_overrun(alloc, state, a, out),
        Code::Temporal => for_temporal(alloc, state, a, k.detail, out),
        Code::Linked => for_linked(alloc, state, a, k.detail, out),
        Code::Must => for_must(alloc, state, a, k.detail, k.a, out),
        Code::BadStep => for_bad_step(alloc, state, a, k.detail, k.a, out),
        _ => Ok(()),
    }
}

fn for_subject(
    alloc: Global,
    state: &PlanState,
    k: &Conflict,
    out: &mut Vec<RepairMove>,
) -> Result<(), AllocError>
    requires { IsWhole state.now }
    ensures { OnOk result (out.new.items ≡ out.old.items ++ of_found (λ a. tried_with state.now a k.now k.now.code) (found state.now k.now.subject)) }
{
    match state.live(k.subject) {
        Some(a) => for_activity(alloc, state, a, k, out),
        None => Ok(()),
    }
}

/// Appends all moves that are tried for a conflict, in order.
pub(crate) fn tried(
    alloc: Global,
    state: &PlanState,
    k: &Conflict,
    out: &mut Vec<RepairMove>,
) -> Result<(), AllocError>
    requires { IsWhole state.now }
    ensures { OnOk result (out.new.items ≡ out.old.items ++ tried_for state.now k.now k.now.code) }
{
    match k.code {
        Code::OpenGoal => for_open_goal(alloc, state, k.subject, out),
        Code::Over => for_over(alloc, state, k.subject, k.a, k.b, out),
        Code::Low => for_low(alloc, state, k.subject, k.a, k.b, out),
        Code::High => for_high(alloc, state, k.subject, k.a, k.b, out),
        _ => for_subject(alloc, state, k, out),
    }
}

// How many moves the list has room for at first: those for an open goal, which are sixteen additions and a drop.
const ROOM: usize = 17;

/// The candidates for a conflict, in order: at most 256 moves, each of which makes sense, and none twice.
#[tactic(auto, unfolding(pl_semantics::specs::Candidates::candidates_of))]
pub fn candidates(alloc: Global, board: &Board, k: &Conflict) -> Result<Vec<RepairMove>, AllocError>
    requires { board.now.spoiled ≡ false }
    ensures { IfOk result (λ all. all.items ≡ candidates_of board.now.state k.now) }
{
    let state = board.state();
    let mut all = Vec::with_capacity(alloc, ROOM)?;
    tried(alloc, state, k, &mut all)?;
    cut(alloc, state, all.as_slice())
}
