ghost use Rattle.std.specs.Prelude.{◌≡◌, ◌++◌, OnOk, IfOk, map};
ghost use Rattle.pl_plan.specs.Activities.{activity_of};
ghost use Rattle.pl_plan.specs.Trees.{id_of};
ghost use Rattle.pl_semantics.specs.PlanStates.{of_found};
ghost use Rattle.pl_moves.specs.Undone.{alone, picked};

use crate::change::Change;
use pl_lists::Copied;
use pl_plan::{Activity, Plan};
use std::alloc::{AllocError, Global};

fn ids_of(alloc: Global, activities: &[Activity]) -> Result<Vec<u32>, AllocError>
    ensures { IfOk result (λ ids. ids.items ≡ map id_of activities.now) }
{
    activities.iter().map(|a| a.id).collect(alloc)
}

fn add_live(alloc: Global, plan: &Plan, id: u32, all: &mut Vec<Activity>) -> Result<(), AllocError>
    ensures { OnOk result (all.new.items ≡ all.old.items ++ of_found alone (activity_of id plan.now.activities)) }
{
    match plan.get(id) {
        Some(a) => {
            all.push(a.copy(alloc)?)?;
            Ok(())
        }
        None => Ok(()),
    }
}

// The activities of these ids, as they stand.
fn picked(alloc: Global, plan: &Plan, ids: &[u32]) -> Result<Vec<Activity>, AllocError>
    ensures { IfOk result (λ all. all.items ≡ picked plan.now.activities ids.now) }
{
    let mut all = Vec::with_capacity(alloc, ids.len())?;
    for id in ids {
        add_live(alloc, plan, *id, &mut all)?;
    }
    Ok(all)
}

/// The change that undoes one: those that it places go, and those that go come back as they are.
pub(crate) fn undoing(alloc: Global, plan: &Plan, change: &Change) -> Result<Change, AllocError>
    ensures gone { IfOk result (λ c. c.gone.items ≡ map id_of change.now.placed.items) }
    ensures placed { IfOk result (λ c. c.placed.items ≡ picked plan.now.activities change.now.gone.items) }
{
    Ok(Change {
        gone: ids_of(alloc, &change.placed)?,
        placed: picked(alloc, plan, &change.gone)?,
    })
}
