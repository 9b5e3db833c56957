//! An activity with all that descends from it.
ghost use Rattle.std.specs.Prelude.{◌≡◌, ◌∷◌, [], IfOk, IsTrue};
ghost use Rattle.pl_plan.specs.Activities.{IsLive};
ghost use Rattle.pl_plan.specs.Trees.{subtree_of};
ghost use Rattle.pl_semantics.specs.Whole.{IsWhole};

use pl_semantics::PlanState;
use std::alloc::{AllocError, Global};

// Whether no alternative of it is chosen, so that nothing descends from it.
#[tactic(auto, using(crate::proofs::Under::alone_below))]
fn is_undetailed(s: &PlanState, id: u32) -> bool
    requires whole { IsWhole s.now }
    requires live { IsLive id s.now.plan.activities }
    ensures { IsTrue result → subtree_of id s.now.plan.activities ≡ id ∷ [] }
{
    match s.plan.get(id) {
        Some(a) => a.detail.is_none(),
        None => false,
    }
}

fn single_id(alloc: Global, id: u32) -> Result<Vec<u32>, AllocError>
    ensures { IfOk result (λ ids. ids.items ≡ id ∷ []) }
{
    let mut ids = Vec::with_capacity(alloc, 1)?;
    ids.push(id)?;
    Ok(ids)
}

/// The ids of the activity and of all its descendants, rising.
pub(crate) fn subtree(alloc: Global, s: &PlanState, id: u32) -> Result<Vec<u32>, AllocError>
    requires whole { IsWhole s.now }
    requires live { IsLive id s.now.plan.activities }
    ensures { IfOk result (λ ids. ids.items ≡ subtree_of id s.now.plan.activities) }
{
    if is_undetailed(s, id) {
        single_id(alloc, id)
    } else {
        s.plan.subtree(alloc, id)
    }
}
