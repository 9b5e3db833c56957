ghost use Rattle.std.specs.Prelude.{◌≡◌, false, true, length, find, ◌≤◌, IfOk, IfErr, Some, None};
ghost use Rattle.std.specs.Option.{option_map};
ghost use Rattle.pl_plan.specs.Trees.{id_of};
ghost use Rattle.pl_semantics.specs.PlanStates.{found, is_committed};
ghost use Rattle.pl_semantics.specs.Legal.{is_legal};
ghost use Rattle.pl_semantics.specs.Whole.{IsWhole};
ghost use Rattle.pl_semantics.specs.Moves.{children_for, count_of_new, holds, is_full, is_locked, is_proper, refusal_of};
ghost use Rattle.pl_moves.specs.Changes.{IsNamedLive};
ghost use Rattle.pl_moves.specs.Sides.{when_so};

use crate::objecting::first_objecting;
use crate::objection::Objection;
use crate::side::Side;
use crate::starts::{alternative_at, first_started};
use pl_board::Board;
use pl_plan::RepairMove;
use pl_semantics::{PlanState, Refusal};

// Whether the activity of this id is live and committed.
fn is_committed_at(s: &PlanState, id: u32) -> bool
    ensures { result ≡ holds (is_committed s.now) (found s.now id) }
{
    match s.plan.get(id) {
        Some(a) => a.start < s.committed,
        None => false,
    }
}

// The id, if its activity is live and committed.
fn committed_one(s: &PlanState, id: u32) -> Option<u32>
    ensures { result ≡ when_so (holds (is_committed s.now) (found s.now id)) id }
{
    if is_committed_at(s, id) {
        Some(id)
    } else {
        None
    }
}

// The first of the activities that the move changes that is committed.
fn first_locked(s: &PlanState, mv: &RepairMove) -> Option<u32>
    requires whole { IsWhole s.now }
    requires named { IsNamedLive s.now mv.now }
    ensures { result ≡ option_map id_of (find (is_locked s.now mv.now) s.now.plan.activities) }
{
    match *mv {
        RepairMove::Add { .. } => None,
        RepairMove::Delete { id } => first_objecting(s, Objection::Committed, id),
        RepairMove::Shift { id, .. } => first_objecting(s, Objection::Committed, id),
        RepairMove::Detail { id, .. } => committed_one(s, id),
        RepairMove::Abstract { id } => first_objecting(s, Objection::Committed, id),
        RepairMove::Assign { id, .. } => first_objecting(s, Objection::Committed, id),
        RepairMove::Drop { .. } => None,
    }
}

fn count_of_children(s: &PlanState, id: u32, alternative: u32) -> usize
    requires { IsWhole s.now }
    ensures count { result ≡ length (children_for s.now alternative (found s.now id)) }
    ensures few { result ≤ 16 }
{
    match s.plan.get(id) {
        Some(a) => match alternative_at(s, a, alternative) {
            Some(of) => of.slots.len(),
            None => 0,
        },
        None => 0,
    }
}

fn count_of_new(s: &PlanState, mv: &RepairMove) -> usize
    requires { IsWhole s.now }
    ensures count { result ≡ count_of_new s.now mv.now }
    ensures few { result ≤ 16 }
{
    match *mv {
        RepairMove::Add { .. } => 1,
        RepairMove::Detail { id, alternative } => count_of_children(s, id, alternative),
        _ => 0,
    }
}

// Whether there would be more activities than there may be.
fn is_full(s: &PlanState, mv: &RepairMove) -> bool
    requires { IsWhole s.now }
    ensures { result ≡ is_full s.now mv.now }
{
    (s.live_limit as usize) < s.plan.len() as usize + count_of_new(s, mv)
}

/// Why the move is refused, if it is. Only the activities that it changes are looked at.
#[tactic(auto, unfolding(pl_semantics::specs::Moves::refusal_of))]
pub(crate) fn refusal(s: &PlanState, mv: &RepairMove) -> Option<Refusal>
    requires whole { IsWhole s.now }
    requires named { IsNamedLive s.now mv.now }
    ensures { result ≡ refusal_of s.now mv.now }
{
    if let Some(id) = first_locked(s, mv) {
        Some(Refusal::Locked(id))
    } else if let Some(id) = first_started(s, mv, Side::BelowFloor) {
        Some(Refusal::Behind(id))
    } else if let Some(id) = first_started(s, mv, Side::PastHorizon) {
        Some(Refusal::Beyond(id))
    } else if is_full(s, mv) {
        Some(Refusal::Full)
    } else {
        None
    }
}

/// Whether a proper move may be made, and if not, why it is refused.
pub fn legal(board: &Board, mv: &RepairMove) -> Result<(), Refusal>
    requires unspoiled { board.now.spoiled ≡ false }
    requires proper { is_proper board.now.state mv.now ≡ true }
    ensures ok { IfOk result (λ made. refusal_of board.now.state mv.now ≡ None) }
    ensures refused { IfErr result (λ reason. refusal_of board.now.state mv.now ≡ Some reason) }
{
    match refusal(board.state(), mv) {
        Some(reason) => Err(reason),
        None => Ok(()),
    }
}

/// Whether a proper move may be made.
pub fn is_legal(board: &Board, mv: &RepairMove) -> bool
    requires unspoiled { board.now.spoiled ≡ false }
    requires proper { is_proper board.now.state mv.now ≡ true }
    ensures { result ≡ is_legal board.now.state mv.now }
{
    match legal(board, mv) {
        Ok(()) => true,
        Err(_) => false,
    }
}
