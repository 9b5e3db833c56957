//! How many conflicts a move leaves at least.
ghost use Rattle.std.specs.Prelude.{◌≡◌, ◌≤◌, ◌==◌, length, slice_get, if◌then◌else◌};
ghost use Rattle.pl_plan.specs.Fitting.{alternatives_of};
ghost use Rattle.pl_semantics.specs.Legal.{left_after};
ghost use Rattle.pl_moves.specs.Runs.{CanBeMade};
ghost use Rattle.pl_moves.specs.Least.{least_known};

use crate::lookups::alternatives_of_kind;
use pl_plan::RepairMove;
use pl_semantics::PlanState;

// One if this kind has alternatives: a new activity comes with none chosen, which is a conflict.
fn least_of_new(s: &PlanState, kind: u32) -> u32
    ensures { result ≡ (if length (alternatives_of (slice_get s.now.model.kinds kind)) == 0 then 0 else 1) }
{
    if alternatives_of_kind(s.model.get(), kind).is_empty() {
        0
    } else {
        1
    }
}

fn least_known(s: &PlanState, mv: &RepairMove) -> u32
    ensures { result ≡ least_known s.now mv.now }
{
    match *mv {
        RepairMove::Add { kind, .. } => least_of_new(s, kind),
        _ => 0,
    }
}

/// A number of conflicts that the move leaves at least, known without making it.
#[tactic(auto, using(crate::proofs::Undetailed::known_least))]
pub fn least_left(s: &PlanState, mv: &RepairMove) -> u32
    requires { CanBeMade s.now mv.now }
    ensures known { result ≡ least_known s.now mv.now }
    ensures least { result ≤ left_after s.now mv.now }
{
    least_known(s, mv)
}
