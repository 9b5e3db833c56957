//! What is wrong with some goals and some activities, where what the activities come to is kept.
ghost use Rattle.std.specs.Prelude.{◌≡◌, ◌++◌, Some, OnOk};
ghost use Rattle.std.specs.List.{flat_map};
ghost use Rattle.pl_plan.specs.Activities.{activity_of};
ghost use Rattle.pl_semantics.specs.Whole.{IsWhole};
ghost use Rattle.pl_semantics.specs.Activities.{row_above, wrong_at, wrong_of};
ghost use Rattle.pl_update.specs.Evaluations.Kept.{AreOf};
ghost use Rattle.pl_update.specs.GoalsAndActivities.Near.{near};

use crate::evaluations::Evaluations;
use crate::goals_and_activities::finding::{add_off, add_open};
use pl_conflict::Conflict;
use pl_detect::wrong_with;
use pl_plan::Activity;
use pl_semantics::PlanState;
use std::alloc::AllocError;

// The values of a live activity's parent; none at a root.
fn row_above<'v>(s: &PlanState, kept: &'v Evaluations, a: &Activity) -> &'v [Option<i64>]
    requires whole { IsWhole s.now }
    requires kept { AreOf s.now kept.now }
    requires live { activity_of a.now.id s.now.plan.activities ≡ Some a.now }
    ensures { result.now ≡ row_above s.now a.now.parent }
{
    match a.parent {
        Some((parent, _)) => match kept.of(parent) {
            Some(evaluated) => evaluated.values.as_slice(),
            None => unreachable!(),
        },
        None => &[],
    }
}

fn add_wrong_at(
    s: &PlanState,
    kept: &Evaluations,
    a: &Activity,
    out: &mut Vec<Conflict>,
) -> Result<(), AllocError>
    requires whole { IsWhole s.now }
    requires kept { AreOf s.now kept.now }
    requires live { activity_of a.now.id s.now.plan.activities ≡ Some a.now }
    ensures { OnOk result (out.new.items ≡ out.old.items ++ wrong_at s.now a.now) }
{
    match kept.of(a.id) {
        Some(own) => wrong_with(s, a, own, row_above(s, kept, a), out),
        None => unreachable!(),
    }
}

fn add_wrong_of(
    s: &PlanState,
    kept: &Evaluations,
    id: u32,
    out: &mut Vec<Conflict>,
) -> Result<(), AllocError>
    requires whole { IsWhole s.now }
    requires kept { AreOf s.now kept.now }
    ensures { OnOk result (out.new.items ≡ out.old.items ++ wrong_of s.now id) }
{
    match s.plan.get(id) {
        Some(a) => add_wrong_at(s, kept, a, out),
        None => Ok(()),
    }
}

fn add_wrong(
    s: &PlanState,
    kept: &Evaluations,
    ids: &[u32],
    out: &mut Vec<Conflict>,
) -> Result<(), AllocError>
    requires whole { IsWhole s.now }
    requires kept { AreOf s.now kept.now }
    ensures { OnOk result (out.new.items ≡ out.old.items ++ flat_map (wrong_of s.now) ids.now) }
{
    for id in ids {
        add_wrong_of(s, kept, *id, out)?;
    }
    Ok(())
}

/// Appends the conflicts of the goals of these numbers, and of the activities of these ids, by what these come to as it is kept.
#[tactic(auto, unfolding(crate::specs::GoalsAndActivities::Near::near))]
pub fn near_kept(
    s: &PlanState,
    kept: &Evaluations,
    numbers: &[u32],
    ids: &[u32],
    out: &mut Vec<Conflict>,
) -> Result<(), AllocError>
    requires whole { IsWhole s.now }
    requires kept { AreOf s.now kept.now }
    ensures { OnOk result (out.new.items ≡ out.old.items ++ near s.now numbers.now ids.now) }
{
    add_open(s, numbers, out)?;
    add_off(s, ids, out)?;
    add_wrong(s, kept, ids, out)?;
    Ok(())
}
