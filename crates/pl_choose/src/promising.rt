//! The first move that is tried for a conflict that stands alone. If it leaves no more conflicts than each of the others is known
//! to leave at least, none of these is better, and they are not listed.
ghost use Rattle.std.specs.Prelude.{◌≡◌, true, false, Some, IfSome};
ghost use Rattle.pl_plan.specs.declared.repair.RepairMove.TheVariants.{Add};
ghost use Rattle.pl_semantics.specs.Whole.{IsWhole};
ghost use Rattle.pl_semantics.specs.PlanStates.{found, goal_at, of_found};
ghost use Rattle.pl_semantics.specs.Repairs.{for_goal, for_undetailed};
ghost use Rattle.pl_semantics.specs.Candidates.{candidates_of, changes_nothing, tried_for};
ghost use Rattle.pl_semantics.specs.Legal.{legal_for};
ghost use Rattle.pl_semantics.specs.Moves.{is_proper};
ghost use Rattle.pl_choose.specs.Promising.{BeginsWith, IsForemost, IsPromising};

use pl_board::Board;
use pl_cand::Proposal;
use pl_conflict::{Code, Conflict};
use pl_facts::Goal;
use pl_model::{Kind, Reservation, Slot};
use pl_moves::{is_legal, proper};
use pl_plan::{Activity, RepairMove};
use pl_semantics::PlanState;

// ---- which moves are likely to leave no conflict: the answers save time alone, so none of them could be wrong, and none needs a proof

fn needs_state(reservation: &Reservation) -> bool {
    matches!(
        reservation,
        Reservation::Put(_, _, _) | Reservation::Must(_, _)
    )
}

// Whether activities of this kind ask for no partner and for no state.
fn is_undemanding(kind: &Kind) -> bool {
    kind.links.is_empty() && !kind.reservations.as_slice().iter().any(|r| needs_state(r))
}

fn is_undemanding_at(state: &PlanState, kind: u32) -> bool {
    match state.model.get().kinds.as_slice().get(kind as usize) {
        Some(kind) => is_undemanding(kind),
        None => false,
    }
}

fn are_undemanding(state: &PlanState, slots: &[Slot]) -> bool {
    slots.iter().all(|slot| is_undemanding_at(state, slot.kind))
}

// ---- the first move

// The first start that is tried for a goal, if any is tried.
fn first_start(state: &PlanState, goal: &Goal) -> Option<u32>
    requires { IsWhole state.now }
    ensures { IfSome result (λ start. BeginsWith (Add goal.now.kind start (Some goal.now.number)) (for_goal state.now goal.now)) }
{
    let start = goal.earliest.max(state.floor());
    if start <= goal.latest && start < state.model.get().horizon {
        Some(start)
    } else {
        None
    }
}

// The first addition that is tried for a goal that may not be dropped, if any is tried.
fn first_addition(state: &PlanState, goal: &Goal) -> Option<RepairMove>
    requires whole { IsWhole state.now }
    requires goal { goal_at state.now goal.now.number ≡ Some goal.now }
    requires must { goal.now.must ≡ true }
    ensures foremost { IfSome result (λ m. IsForemost state.now m (for_goal state.now goal.now)) }
    ensures changes { IfSome result (λ m. changes_nothing state.now m ≡ false) }
{
    let start = first_start(state, goal)?;
    Some(RepairMove::Add {
        kind: goal.kind,
        start,
        goal: Some(goal.number),
    })
}

// The same for any goal, if the addition is likely to leave no conflict. There is none for a goal that may be dropped, since its drop
// may leave fewer conflicts.
fn first_if_likely(state: &PlanState, goal: &Goal) -> Option<RepairMove>
    requires whole { IsWhole state.now }
    requires goal { goal_at state.now goal.now.number ≡ Some goal.now }
    ensures foremost { IfSome result (λ m. IsForemost state.now m (for_goal state.now goal.now)) }
    ensures changes { IfSome result (λ m. changes_nothing state.now m ≡ false) }
{
    if goal.must && is_undemanding_at(state, goal.kind) {
        first_addition(state, goal)
    } else {
        None
    }
}

// The same for the goal of this number.
fn first_for_goal(state: &PlanState, number: u32) -> Option<RepairMove>
    requires { IsWhole state.now }
    ensures foremost { IfSome result (λ m. IsForemost state.now m (of_found (for_goal state.now) (goal_at state.now number))) }
    ensures changes { IfSome result (λ m. changes_nothing state.now m ≡ false) }
{
    match state.goals.get(number) {
        Some(goal) => first_if_likely(state, goal),
        None => None,
    }
}

// The choice of an activity's first alternative, if it has one that is likely to leave no conflict.
fn first_alternative(state: &PlanState, a: &Activity) -> Option<RepairMove>
    ensures foremost { IfSome result (λ m. IsForemost state.now m (for_undetailed state.now a.now)) }
    ensures changes { IfSome result (λ m. changes_nothing state.now m ≡ false) }
{
    match state.alternatives_of(a) {
        [first, ..] if are_undemanding(state, first.slots.as_slice()) => Some(RepairMove::Detail {
            id: a.id,
            alternative: 0,
        }),
        _ => None,
    }
}

// The same for the activity of this id.
fn first_for_undetailed(state: &PlanState, id: u32) -> Option<RepairMove>
    ensures foremost { IfSome result (λ m. IsForemost state.now m (of_found (for_undetailed state.now) (found state.now id))) }
    ensures changes { IfSome result (λ m. changes_nothing state.now m ≡ false) }
{
    match state.live(id) {
        Some(a) => first_alternative(state, a),
        None => None,
    }
}

// The first move that is tried for an open goal, or for an activity that lacks an alternative, if it is likely to leave no
// conflict. No list is made.
fn first_tried(state: &PlanState, k: &Conflict) -> Option<RepairMove>
    requires { IsWhole state.now }
    ensures foremost { IfSome result (λ m. IsForemost state.now m (tried_for state.now k.now k.now.code)) }
    ensures changes { IfSome result (λ m. changes_nothing state.now m ≡ false) }
{
    match k.code {
        Code::OpenGoal => first_for_goal(state, k.subject),
        Code::Undetailed => first_for_undetailed(state, k.subject),
        _ => None,
    }
}

// This move, if it makes sense: then it is the first candidate of the conflict.
fn first_candidate(board: &Board, k: &Conflict) -> Option<RepairMove>
    requires { board.now.spoiled ≡ false }
    ensures foremost { IfSome result (λ m. IsForemost board.now.state m (candidates_of board.now.state k.now)) }
    ensures proper { IfSome result (λ m. is_proper board.now.state m ≡ true) }
{
    let mv = first_tried(board.state(), k)?;
    if proper(board, &mv) { Some(mv) } else { None }
}

// This move, if it is legal as well: then it is the first legal candidate of the conflict.
fn first_legal(board: &Board, k: &Conflict) -> Option<RepairMove>
    requires { board.now.spoiled ≡ false }
    ensures { IfSome result (λ m. IsForemost board.now.state m (legal_for board.now.state k.now)) }
{
    let mv = first_candidate(board, k)?;
    if is_legal(board, &mv) { Some(mv) } else { None }
}

/// The first legal candidate of the only conflict, if it is found without a list and no other has a lower bound.
pub(crate) fn promising(board: &Board) -> Option<Proposal>
    requires { board.now.spoiled ≡ false }
    ensures { IfSome result (IsPromising board.now.state) }
{
    if board.conflicts().len() != 1 {
        return None;
    }
    let conflict = board.conflicts().first()?;
    let mv = first_legal(board, &conflict)?;
    Some(Proposal { conflict, mv })
}
