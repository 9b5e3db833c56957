//! A difference, once the plan has changed.
ghost use Rattle.std.specs.Prelude.{◌≡◌, ◌++◌, IfOk, OnOk};
ghost use Rattle.std.specs.List.{fold};
ghost use Rattle.pl_plan.specs.Activities.{activity_of};
ghost use Rattle.pl_semantics.specs.PlanStates.{of_found};
ghost use Rattle.pl_memo.specs.Differences.{AllCome, IsChangedBy, leaving};
ghost use Rattle.pl_memo.specs.Memories.{alone, going};

use crate::difference::Difference;
use pl_lists::Copied;
use pl_plan::{Activity, Plan};
use std::alloc::{AllocError, Global};

// The difference once these activities have left the plan.
fn all_left(alloc: Global, since: Difference, left: &[Activity]) -> Result<Difference, AllocError>
    ensures { IfOk result (λ d. d ≡ fold leaving since left.now) }
{
    let mut reached = since;
    for a in left {
        reached = reached.leave(a.copy(alloc)?)?;
    }
    Ok(reached)
}

// The difference once these activities have come into the plan.
fn all_come(alloc: Global, since: Difference, more: &[Activity]) -> Result<Difference, AllocError>
    ensures { IfOk result (λ d. AllCome since more.now d) }
{
    let mut reached = since;
    for a in more {
        reached = reached.come(a.copy(alloc)?)?;
    }
    Ok(reached)
}

/// The difference once some activities have left the plan and others have come in their places.
pub(crate) fn changed(
    alloc: Global,
    since: Difference,
    left: &[Activity],
    more: &[Activity],
) -> Result<Difference, AllocError>
    ensures { IfOk result (λ d. IsChangedBy left.now more.now since d) }
{
    let since = all_left(alloc, since, left)?;
    let since = all_come(alloc, since, more)?;
    Ok(since)
}

fn add_live(alloc: Global, plan: &Plan, id: u32, all: &mut Vec<Activity>) -> Result<(), AllocError>
    ensures { OnOk result (all.new.items ≡ all.old.items ++ of_found alone (activity_of id plan.now.activities)) }
{
    match plan.get(id) {
        Some(a) => {
            all.push(a.copy(alloc)?)?;
            Ok(())
        }
        None => Ok(()),
    }
}

/// The activities of these ids, as they stand in the plan.
pub fn going(alloc: Global, plan: &Plan, ids: &[u32]) -> Result<Vec<Activity>, AllocError>
    ensures { IfOk result (λ all. all.items ≡ going plan.now.activities ids.now) }
{
    let mut all = Vec::with_capacity(alloc, ids.len())?;
    for id in ids {
        add_live(alloc, plan, *id, &mut all)?;
    }
    Ok(all)
}
