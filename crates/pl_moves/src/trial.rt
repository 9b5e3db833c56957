//! A change of activities that can be undone.
ghost use Rattle.std.specs.Prelude.{◌≡◌, ◌≤◌, true, None, IfOk};
ghost use Rattle.pl_semantics.specs.Whole.{IsWhole};
ghost use Rattle.pl_semantics.specs.Moves.{is_proper, refusal_of};
ghost use Rattle.pl_moves.specs.Attempts.{IsTrial};
ghost use Rattle.pl_moves.specs.Changes.{IsOfActivities};

use crate::change::{Change, change_of};
use crate::undoing::undoing;
use pl_plan::RepairMove;
use pl_semantics::PlanState;
use std::alloc::{AllocError, Global};

/// A change, and the one that undoes it.
#[derive(Drop)]
pub struct Trial {
    pub change: Change,
    pub undo: Change,
}

/// What a move of activities changes, and how that is undone. The move is proper, and nothing refuses it.
pub fn trial_of(alloc: Global, s: &PlanState, mv: &RepairMove) -> Result<Trial, AllocError>
    requires whole { IsWhole s.now }
    requires proper { is_proper s.now mv.now ≡ true }
    requires allowed { refusal_of s.now mv.now ≡ None }
    requires next { s.now.next_id ≤ 3999999000 }
    requires activities { IsOfActivities mv.now }
    ensures { IfOk result (IsTrial s.now mv.now) }
{
    let change = change_of(alloc, s, mv)?;
    let undo = undoing(alloc, &s.plan, &change)?;
    Ok(Trial { change, undo })
}
