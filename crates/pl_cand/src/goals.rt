//! Moves for a goal that is open.
ghost use Rattle.std.specs.Prelude.{◌≡◌, ◌++◌, OnOk};
ghost use Rattle.pl_semantics.specs.Whole.{IsWhole};
ghost use Rattle.pl_semantics.specs.Repairs.{for_goal};
ghost use Rattle.pl_cand.specs.Details.{serving};

use crate::reading::{from_floor, to_last};
use crate::starts::add_news;
use crate::strides::spread;
use pl_facts::Goal;
use pl_plan::RepairMove;
use pl_semantics::PlanState;
use std::alloc::{AllocError, Global};

// Appends additions of an activity that serves the goal, one for each start that is tried.
fn add_serving(
    alloc: Global,
    state: &PlanState,
    goal: &Goal,
    out: &mut Vec<RepairMove>,
) -> Result<(), AllocError>
    requires { IsWhole state.now }
    ensures { OnOk result (out.new.items ≡ out.old.items ++ serving state.now goal.now) }
{
    let earliest = from_floor(state, i64::from(goal.earliest));
    let latest = to_last(state, i64::from(goal.latest));
    let starts = spread(alloc, earliest, latest)?;
    add_news(state, goal.kind, Some(goal.number), starts.as_slice(), out)?;
    Ok(())
}

/// Appends additions of an activity that serves the goal, one for each start that is tried, and the drop of the goal.
pub(crate) fn for_goal(
    alloc: Global,
    state: &PlanState,
    goal: &Goal,
    out: &mut Vec<RepairMove>,
) -> Result<(), AllocError>
    requires { IsWhole state.now }
    ensures { OnOk result (out.new.items ≡ out.old.items ++ for_goal state.now goal.now) }
{
    add_serving(alloc, state, goal, out)?;
    out.push(RepairMove::Drop { goal: goal.number })?;
    Ok(())
}
