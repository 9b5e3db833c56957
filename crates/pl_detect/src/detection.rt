//! All that is wrong with a plan.
ghost use Rattle.std.specs.Prelude.{◌≡◌, ◌++◌, IfOk, OnOk};
ghost use Rattle.pl_conflict.specs.Sorting.{sorted};
ghost use Rattle.pl_semantics.specs.Demands.{demands_of};
ghost use Rattle.pl_semantics.specs.Whole.{IsWhole};
ghost use Rattle.pl_semantics.specs.Goals.{goal_conflicts};
ghost use Rattle.pl_semantics.specs.Activities.{activity_conflicts};
ghost use Rattle.pl_semantics.specs.Links.{link_conflicts};
ghost use Rattle.pl_semantics.specs.Timelines.{timeline_conflicts};
ghost use Rattle.pl_semantics.specs.Conflicts.{conflicts_of};

use crate::activities::activity_conflicts;
use crate::goals::goal_conflicts;
use crate::links::link_conflicts;
use crate::timeline_conflicts;
use pl_conflict::{Conflict, ConflictSet};
use pl_semantics::{Demand, PlanState};
use std::alloc::{AllocError, Global};

/// Appends the conflicts of goals, of activities, and of links and orders.
pub fn plan_conflicts(
    alloc: Global,
    s: &PlanState,
    out: &mut Vec<Conflict>,
) -> Result<(), AllocError>
    requires { IsWhole s.now }
    ensures { OnOk result (out.new.items ≡ out.old.items ++ (goal_conflicts s.now ++ activity_conflicts s.now ++ link_conflicts s.now)) }
{
    goal_conflicts(s, out)?;
    activity_conflicts(alloc, s, out)?;
    link_conflicts(alloc, s, out)?;
    Ok(())
}

fn sorted(alloc: Global, conflicts: &[Conflict]) -> Result<ConflictSet, AllocError>
    ensures { IfOk result (λ set. set ≡ sorted conflicts.now) }
{
    let mut set = ConflictSet::new(alloc);
    set.exchange(&[], conflicts)?;
    Ok(set)
}

/// All that is wrong with a plan, given the conflicts of its timelines.
#[tactic(auto, unfolding(pl_semantics::specs::Conflicts::conflicts_of))]
pub fn detect_with(
    alloc: Global,
    s: &PlanState,
    of_timelines: &[Conflict],
) -> Result<ConflictSet, AllocError>
    requires whole { IsWhole s.now }
    requires timelines { of_timelines.now ≡ timeline_conflicts s.now }
    ensures { IfOk result (λ set. set ≡ conflicts_of s.now) }
{
    let mut all = Vec::new(alloc);
    plan_conflicts(alloc, s, &mut all)?;
    all.extend_from_slice(of_timelines)?;
    sorted(alloc, all.as_slice())
}

/// All that is wrong with a plan, given what its activities ask for.
pub fn detect(alloc: Global, s: &PlanState, demands: &[Demand]) -> Result<ConflictSet, AllocError>
    requires whole { IsWhole s.now }
    requires demands { demands.now ≡ demands_of s.now }
    ensures { IfOk result (λ set. set ≡ conflicts_of s.now) }
{
    let mut of_timelines = Vec::new(alloc);
    timeline_conflicts(alloc, s, demands, &mut of_timelines)?;
    detect_with(alloc, s, of_timelines.as_slice())
}
