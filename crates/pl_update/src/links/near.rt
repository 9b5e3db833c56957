//! Whose links and orders a replacement may touch.
ghost use Rattle.std.specs.Prelude.{◌≡◌, ◌++◌, OnOk, IfOk};
ghost use Rattle.std.specs.List.{flat_map};
ghost use Rattle.pl_update.specs.GoalsAndActivities.Near.{HoldSame};
ghost use Rattle.pl_update.specs.Links.Near.{own_and_parent, ids_at, near};

use crate::goals_and_activities::each_once;
use pl_plan::Activity;
use pl_semantics::PlanState;
use std::alloc::{AllocError, Global};

fn add_own_and_parent(a: &Activity, ids: &mut Vec<u32>) -> Result<(), AllocError>
    ensures { OnOk result (ids.new.items ≡ ids.old.items ++ own_and_parent a.now) }
{
    ids.push(a.id)?;
    match a.parent {
        Some(place) => {
            ids.push(place.0)?;
            Ok(())
        }
        None => Ok(()),
    }
}

fn add_ids_at(s: &PlanState, id: u32, ids: &mut Vec<u32>) -> Result<(), AllocError>
    ensures { OnOk result (ids.new.items ≡ ids.old.items ++ ids_at s.now id) }
{
    match s.plan.get(id) {
        Some(a) => add_own_and_parent(a, ids),
        None => Ok(()),
    }
}

fn add_all_ids_at(s: &PlanState, gone: &[u32], ids: &mut Vec<u32>) -> Result<(), AllocError>
    ensures { OnOk result (ids.new.items ≡ ids.old.items ++ flat_map (ids_at s.now) gone.now) }
{
    for id in gone {
        add_ids_at(s, *id, ids)?;
    }
    Ok(())
}

fn add_all_own_and_parent(placed: &[Activity], ids: &mut Vec<u32>) -> Result<(), AllocError>
    ensures { OnOk result (ids.new.items ≡ ids.old.items ++ flat_map own_and_parent placed.now) }
{
    for a in placed {
        add_own_and_parent(a, ids)?;
    }
    Ok(())
}

// Few changes concern more.
const USUAL: usize = 8;

#[tactic(auto, unfolding(crate::specs::Links::Near::near))]
fn all_near(
    alloc: Global,
    s: &PlanState,
    gone: &[u32],
    placed: &[Activity],
) -> Result<Vec<u32>, AllocError>
    ensures { IfOk result (λ ids. ids.items ≡ near s.now gone.now placed.now) }
{
    let mut ids = Vec::with_capacity(alloc, USUAL)?;
    add_all_ids_at(s, gone, &mut ids)?;
    add_all_own_and_parent(placed, &mut ids)?;
    Ok(ids)
}

/// The ids of what goes or comes, and of the parents of these, each once.
pub(crate) fn near(
    alloc: Global,
    s: &PlanState,
    gone: &[u32],
    placed: &[Activity],
) -> Result<Vec<u32>, AllocError>
    ensures { IfOk result (λ ids. HoldSame ids.items (near s.now gone.now placed.now)) }
{
    let ids = all_near(alloc, s, gone, placed)?;
    Ok(each_once(ids))
}
