//! Whether a move is one of those that are tried for the users of a timeline. It is answered without listing these moves.
ghost use Rattle.std.specs.Prelude.{◌≡◌, ◌≤◌, ◌++◌, ◌||◌, false, IfOk, List, Some, length};
ghost use Rattle.std.specs.List.{flat_map, list_any};
ghost use Rattle.pl_plan.specs.Activities.{activity_of};
ghost use Rattle.pl_plan.specs.declared.repair.RepairMove.{RepairMove};
ghost use Rattle.pl_semantics.specs.declared.plan_state.PlanState.{PlanState};
ghost use Rattle.pl_semantics.specs.Whole.{IsWhole};
ghost use Rattle.pl_semantics.specs.Starts.{moves_of};
ghost use Rattle.pl_semantics.specs.Candidates.{same_move};
ghost use Rattle.pl_cand.specs.Telling.{Tells, away, told_within, players_of};

use crate::avoiding::is_around;
use crate::cuts::MOST;
use crate::role::Role;
use crate::shifting::is_move_of;
use crate::told::Told;
use crate::user_list::USERS;
use crate::users::is_user;
use pl_plan::{Activity, RepairMove};
use pl_semantics::PlanState;
use std::alloc::{AllocError, Global};

/// How many moves stand before those of the users, at most: 64 additions that help, and two shifts of each user out of the span.
const BEFORE: usize = 80;

/// How many moves an activity has at most: its shifts, those of its root, and the deletion of the root.
const MOVES: usize = 35;

/// How many moves a root has at most.
const MOVES_OF_A_ROOT: usize = 18;

// What is known of a move that stands among the first so many that are tried.
fn told_within(most: usize) -> Told
    ensures { result ≡ told_within most }
{
    if most <= MOST {
        Told::Early
    } else {
        Told::Unknown
    }
}

// How many moves an activity has at most.
fn most_moves(a: &Activity) -> usize
    ensures few { result ≤ 35 }
    ensures moves { (s : PlanState) → length (moves_of s a.now) ≤ result }
{
    match a.parent {
        Some(_) => MOVES,
        None => MOVES_OF_A_ROOT,
    }
}

// Whether a move shifts a user out of the span. Only users of a capacity are shifted so.
fn is_away(state: &PlanState, role: Role, user: &Activity, mv: &RepairMove) -> bool
    requires whole { IsWhole state.now }
    requires live { activity_of user.now.id state.now.plan.activities ≡ Some user.now }
    ensures { result ≡ list_any (same_move mv.now) (away state.now role user.now) }
{
    match role {
        Role::Uses(a, b) => is_around(state, user, a, b, mv),
        Role::ChangesBelow(_, _) => false,
    }
}

// Whether a move is one of those that are tried for a user.
#[tactic(auto, using(crate::proofs::Starting::move_stands))]
fn is_tried(state: &PlanState, role: Role, user: &Activity, mv: &RepairMove) -> bool
    requires whole { IsWhole state.now }
    requires live { activity_of user.now.id state.now.plan.activities ≡ Some user.now }
    ensures { result ≡ (list_any (same_move mv.now) (away state.now role user.now) || list_any (same_move mv.now) (moves_of state.now user.now)) }
{
    is_away(state, role, user, mv) || is_move_of(state, user, mv)
}

/// What is known of a move among those that are tried for the first eight users of a timeline, after at most 64 others, none of
/// which is this move.
pub(crate) fn seek(
    alloc: Global,
    state: &PlanState,
    timeline: u32,
    role: Role,
    mv: &RepairMove,
) -> Result<Told, AllocError>
    requires { IsWhole state.now }
    ensures { IfOk result (λ t. (help : List RepairMove) → length help ≤ 64 → list_any (same_move mv.now) help ≡ false → Tells (help ++ (flat_map (away state.now role) (players_of state.now timeline role) ++ flat_map (moves_of state.now) (players_of state.now timeline role))) mv.now t) }
{
    let mut found = 0;
    let mut most = BEFORE;
    for x in state.plan.activities() {
        if found >= USERS {
            return Ok(Told::Untried);
        }
        if is_user(alloc, state, timeline, role, x)? {
            most += most_moves(x);
            if is_tried(state, role, x, mv) {
                return Ok(told_within(most));
            }
            found += 1;
        }
    }
    Ok(Told::Untried)
}
