ghost use Rattle.std.specs.Prelude.{◌≡◌, [], ◌∷◌, IfOk};
ghost use Rattle.pl_plan.specs.Activities.{IsLive};
ghost use Rattle.pl_plan.specs.Trees.{subtree_of};
ghost use Rattle.pl_semantics.specs.Whole.{IsWhole};
ghost use Rattle.pl_moves.specs.Changes.{IsNamedLive, gone_by};

use pl_plan::RepairMove;
use pl_semantics::PlanState;
use std::alloc::{AllocError, Global};

fn subtree(alloc: Global, s: &PlanState, id: u32) -> Result<Vec<u32>, AllocError>
    requires whole { IsWhole s.now }
    requires live { IsLive id s.now.plan.activities }
    ensures { IfOk result (λ ids. ids.items ≡ subtree_of id s.now.plan.activities) }
{
    s.plan.subtree(alloc, id)
}

fn single_id(alloc: Global, id: u32) -> Result<Vec<u32>, AllocError>
    ensures { IfOk result (λ ids. ids.items ≡ id ∷ []) }
{
    let mut ids = Vec::new(alloc);
    ids.push(id)?;
    Ok(ids)
}

/// The ids of the activities that the move changes or takes out, rising.
pub(crate) fn gone_by(alloc: Global, s: &PlanState, mv: &RepairMove) -> Result<Vec<u32>, AllocError>
    requires whole { IsWhole s.now }
    requires named { IsNamedLive s.now mv.now }
    ensures { IfOk result (λ ids. ids.items ≡ gone_by s.now mv.now) }
{
    match *mv {
        RepairMove::Add { .. } => Ok(Vec::new(alloc)),
        RepairMove::Delete { id } => subtree(alloc, s, id),
        RepairMove::Shift { id, .. } => subtree(alloc, s, id),
        RepairMove::Detail { id, .. } => single_id(alloc, id),
        RepairMove::Abstract { id } => subtree(alloc, s, id),
        RepairMove::Assign { id, .. } => subtree(alloc, s, id),
        RepairMove::Drop { .. } => Ok(Vec::new(alloc)),
    }
}
