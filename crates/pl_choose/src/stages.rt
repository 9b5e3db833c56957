//! Moves with what they change, found out before any of them is made.
ghost use Rattle.std.specs.Prelude.{◌≡◌, ◌≤◌, ◌∷◌, true, map, All, IfOk};
ghost use Rattle.pl_semantics.specs.Whole.{IsWhole};
ghost use Rattle.pl_moves.specs.Changes.{IsOfActivities};
ghost use Rattle.pl_choose.specs.Found.{IsAllowed};
ghost use Rattle.pl_choose.specs.Stages.{IsStage, TakesOut, move_of};

use pl_moves::{Trial, trial_of};
use pl_plan::RepairMove;
use pl_semantics::PlanState;
use std::alloc::{AllocError, Global};

/// A move, what it changes, and how that is undone.
#[derive(Drop)]
pub(crate) struct Stage {
    pub(crate) mv: RepairMove,
    pub(crate) trial: Trial,
}

// Whether the move chooses an alternative of the activity of this id, or deletes it.
fn chooses_or_deletes(id: u32, mv: &RepairMove) -> bool
    ensures { result ≡ true → IsOfActivities mv.now }
{
    match *mv {
        RepairMove::Detail { id: other, .. } => other == id,
        RepairMove::Delete { id: other } => other == id,
        _ => false,
    }
}

/// Whether the first move chooses an alternative of an activity, and each other one chooses an alternative of the same activity or
/// deletes it.
pub(crate) fn are_of_one(first: &RepairMove, rest: &[RepairMove]) -> bool
    ensures { result ≡ true → All IsOfActivities (first.now ∷ rest.now) }
{
    match *first {
        RepairMove::Detail { id, .. } => rest.iter().all(|mv| chooses_or_deletes(id, mv)),
        _ => false,
    }
}

fn stage_of(alloc: Global, s: &PlanState, mv: &RepairMove) -> Result<Stage, AllocError>
    requires whole { IsWhole s.now }
    requires next { s.now.next_id ≤ 3999999000 }
    requires allowed { IsAllowed s.now mv.now }
    requires activities { IsOfActivities mv.now }
    ensures stage { IfOk result (λ t. IsStage s.now t) }
    ensures mv { IfOk result (λ t. t.mv ≡ mv.now) }
{
    let trial = trial_of(alloc, s, mv)?;
    Ok(Stage { mv: *mv, trial })
}

/// The first move and the others, each with what it changes.
pub(crate) fn stages_of(
    alloc: Global,
    s: &PlanState,
    first: &RepairMove,
    rest: &[RepairMove],
) -> Result<Vec<Stage>, AllocError>
    requires whole { IsWhole s.now }
    requires next { s.now.next_id ≤ 3999999000 }
    requires first { IsAllowed s.now first.now }
    requires rest { All (IsAllowed s.now) rest.now }
    requires activities { All IsOfActivities (first.now ∷ rest.now) }
    ensures stages { IfOk result (λ ts. All (IsStage s.now) ts.items) }
    ensures moves { IfOk result (λ ts. map move_of ts.items ≡ first.now ∷ rest.now) }
{
    let mut stages = Vec::new(alloc);
    stages.push(stage_of(alloc, s, first)?)?;
    for mv in rest {
        let stage = stage_of(alloc, s, mv)?;
        stages.push(stage)?;
    }
    Ok(stages)
}

/// Whether each of the moves takes out these activities and no others.
pub(crate) fn take_out(gone: &[u32], stages: &[Stage]) -> bool
    ensures { result ≡ true → All (TakesOut gone.now) stages.now }
{
    for stage in stages {
        if stage.trial.change.gone.as_slice() != gone {
            return false;
        }
    }
    true
}
