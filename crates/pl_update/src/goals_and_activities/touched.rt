ghost use Rattle.std.specs.Prelude.{◌≡◌, ◌++◌, [], All, IfOk, OnOk, IsTrue};
ghost use Rattle.std.specs.List.{flat_map};
ghost use Rattle.std.specs.List.Sorted.{IsStrictlyIncreasing};
ghost use Rattle.pl_update.specs.Changes.Replaced.{touched};
ghost use Rattle.pl_plan.specs.Activities.{IsLive};
ghost use Rattle.pl_plan.specs.Serving.{served_in};
ghost use Rattle.pl_semantics.specs.Whole.{IsWhole};
ghost use Rattle.pl_update.specs.GoalsAndActivities.Near.{HoldSame};
ghost use Rattle.pl_update.specs.GoalsAndActivities.Touched.{served_by_id, children_at, touched_ids};

use pl_plan::Activity;
use pl_semantics::PlanState;
use std::alloc::{AllocError, Global};

/// Goals by their numbers and activities by their ids, which a change concerns.
#[derive(Drop)]
pub struct Touched {
    pub numbers: Vec<u32>,
    pub ids: Vec<u32>,
}

/// Each of these numbers once, rising.
pub fn each_once(mut numbers: Vec<u32>) -> Vec<u32>
    ensures same { HoldSame result.items numbers.items }
    ensures rising { IsStrictlyIncreasing result.items }
{
    numbers.sort_unstable();
    numbers.dedup();
    numbers
}

pub(crate) fn served_in(a: &Activity) -> Option<u32>
    ensures { result ≡ served_in a.now }
{
    match a.parent {
        Some(_) => None,
        None => a.goal,
    }
}

pub(crate) fn served_by_id(s: &PlanState, id: u32) -> Option<u32>
    ensures { result ≡ served_by_id s.now id }
{
    served_in(s.plan.get(id)?)
}

// Whether no alternative of it is chosen, so that it has no children.
#[tactic(auto, using(crate::proofs::AboutGoalsAndActivities::Childless::childless))]
fn is_undetailed(s: &PlanState, id: u32) -> bool
    requires { IsWhole s.now }
    ensures { IsTrue result → children_at s.now id ≡ [] }
{
    match s.plan.get(id) {
        Some(a) => a.detail.is_none(),
        None => false,
    }
}

fn add_children_at(
    alloc: Global,
    s: &PlanState,
    id: u32,
    ids: &mut Vec<u32>,
) -> Result<(), AllocError>
    requires whole { IsWhole s.now }
    requires live { IsLive id s.now.plan.activities }
    ensures { OnOk result (ids.new.items ≡ ids.old.items ++ children_at s.now id) }
{
    if is_undetailed(s, id) {
        return Ok(());
    }
    let children = s.plan.children(alloc, id)?;
    ids.extend_from_slice(children.as_slice())?;
    Ok(())
}

fn add_children(
    alloc: Global,
    s: &PlanState,
    gone: &[u32],
    ids: &mut Vec<u32>,
) -> Result<(), AllocError>
    requires whole { IsWhole s.now }
    requires live { All (λ id. IsLive id s.now.plan.activities) gone.now }
    ensures { OnOk result (ids.new.items ≡ ids.old.items ++ flat_map (children_at s.now) gone.now) }
{
    for id in gone {
        add_children_at(alloc, s, *id, ids)?;
    }
    Ok(())
}

fn ids_changed(alloc: Global, gone: &[u32], placed: &[Activity]) -> Result<Vec<u32>, AllocError>
    ensures { IfOk result (λ ids. ids.items ≡ touched gone.now placed.now) }
{
    let mut ids = Vec::with_capacity(alloc, gone.len() + placed.len())?;
    ids.extend_from_slice(gone)?;
    for a in placed {
        ids.push(a.id)?;
    }
    Ok(ids)
}

#[tactic(auto, unfolding(crate::specs::GoalsAndActivities::Touched::touched_ids))]
pub(crate) fn ids_touched(
    alloc: Global,
    s: &PlanState,
    gone: &[u32],
    placed: &[Activity],
) -> Result<Vec<u32>, AllocError>
    requires whole { IsWhole s.now }
    requires live { All (λ id. IsLive id s.now.plan.activities) gone.now }
    ensures { IfOk result (λ ids. ids.items ≡ touched_ids s.now gone.now placed.now) }
{
    let mut ids = ids_changed(alloc, gone, placed)?;
    add_children(alloc, s, gone, &mut ids)?;
    Ok(ids)
}
