//! Whether a move is one of the two shifts that take an activity out of a span. It is answered without listing these shifts.
ghost use Rattle.std.specs.Prelude.{◌≡◌, pos, Some};
ghost use Rattle.std.specs.List.{list_any};
ghost use Rattle.pl_plan.specs.Activities.{activity_of};
ghost use Rattle.pl_semantics.specs.Whole.{IsWhole};
ghost use Rattle.pl_semantics.specs.Repairs.{end_by};
ghost use Rattle.pl_semantics.specs.LineRepairs.{around};
ghost use Rattle.pl_semantics.specs.Candidates.{same_move};
ghost use Rattle.pl_cand.specs.Telling.{is_shift_of_id};

use crate::reading::end_of;
use crate::starts::is_shift_to;
use pl_plan::{Activity, RepairMove};
use pl_semantics::PlanState;

// Whether the activity is firm, and the move is the shift by which it ends at this moment.
#[tactic(auto, using(crate::proofs::Starting::shift_to_stands))]
fn is_end_by(state: &PlanState, a: &Activity, moment: u32, mv: &RepairMove) -> bool
    requires whole { IsWhole state.now }
    requires live { activity_of a.now.id state.now.plan.activities ≡ Some a.now }
    ensures { result ≡ list_any (same_move mv.now) (end_by state.now a.now (pos moment)) }
{
    match end_of(state, a) {
        Some(end) => {
            let duration = i64::from(end) - i64::from(a.start);
            is_shift_to(state, a.id, i64::from(moment) - duration, mv)
        }
        None => false,
    }
}

// Whether a move shifts an activity so that it starts where the span ends, or so that it ends where the span starts.
#[tactic(auto, using(crate::proofs::Starting::around_stands))]
fn is_shift_around(state: &PlanState, user: &Activity, a: u32, b: u32, mv: &RepairMove) -> bool
    requires whole { IsWhole state.now }
    requires live { activity_of user.now.id state.now.plan.activities ≡ Some user.now }
    ensures { result ≡ list_any (same_move mv.now) (around state.now a b user.now) }
{
    is_shift_to(state, user.id, i64::from(b), mv) || is_end_by(state, user, a, mv)
}

fn is_shift_of_id(mv: &RepairMove, user: u32) -> bool
    ensures { result ≡ is_shift_of_id user mv.now }
{
    match *mv {
        RepairMove::Shift { id, .. } => id == user,
        _ => false,
    }
}

/// Whether a move shifts a live activity so that it starts where the span ends, or so that it ends where the span starts. The end
/// of the activity is worked out only if the move is a shift of this activity.
pub(crate) fn is_around(state: &PlanState, user: &Activity, a: u32, b: u32, mv: &RepairMove) -> bool
    requires whole { IsWhole state.now }
    requires live { activity_of user.now.id state.now.plan.activities ≡ Some user.now }
    ensures { result ≡ list_any (same_move mv.now) (around state.now a b user.now) }
{
    if !is_shift_of_id(mv, user.id) {
        return false;
    }
    is_shift_around(state, user, a, b, mv)
}
