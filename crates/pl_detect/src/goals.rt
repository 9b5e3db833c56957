//! Goals that are open, and roots off the goals that they serve.
ghost use Rattle.std.specs.Prelude.{◌≡◌, ◌++◌, OnOk};
ghost use Rattle.std.specs.List.{flat_map};
ghost use Rattle.std.specs.Option.{option_copied, option_to_list};
ghost use Rattle.pl_semantics.specs.Whole.{IsWhole};
ghost use Rattle.pl_semantics.specs.PlanStates.{served_by};
ghost use Rattle.pl_semantics.specs.Goals.{open_at, off_from, off_at, goal_conflicts};

use crate::filing::add;
use pl_conflict::{Code, Conflict};
use pl_facts::Goal;
use pl_plan::Activity;
use pl_semantics::PlanState;
use std::alloc::AllocError;

/// The conflict of a goal that is open and can still be met.
#[tactic(auto, unfolding(pl_semantics::specs::Goals::open_at))]
pub fn open_at(s: &PlanState, goal: &Goal) -> Option<Conflict>
    requires { IsWhole s.now }
    ensures { option_to_list result ≡ open_at s.now goal.now }
{
    if s.is_open(goal) && s.floor() <= goal.latest {
        Some(Conflict {
            from: goal.latest,
            code: Code::OpenGoal,
            subject: goal.number,
            detail: 0,
            a: goal.earliest,
            b: goal.latest,
        })
    } else {
        None
    }
}

fn served_by<'s>(s: &'s PlanState, a: &Activity) -> Option<&'s Goal>
    ensures { option_copied result ≡ served_by s.now a.now }
{
    match (a.parent, a.goal) {
        (None, Some(number)) => s.goals.get(number),
        _ => None,
    }
}

fn off_from(a: &Activity, goal: &Goal) -> Option<Conflict>
    ensures { option_to_list result ≡ off_from a.now goal.now }
{
    if a.start < goal.earliest || goal.latest < a.start {
        Some(Conflict {
            from: a.start.min(goal.latest),
            code: Code::OffGoal,
            subject: a.id,
            detail: goal.number,
            a: goal.earliest,
            b: goal.latest,
        })
    } else {
        None
    }
}

/// The conflict of an uncommitted root that starts outside what its goal allows.
#[tactic(auto, unfolding(pl_semantics::specs::Goals::off_at))]
pub fn off_at(s: &PlanState, a: &Activity) -> Option<Conflict>
    ensures { option_to_list result ≡ off_at s.now a.now }
{
    if a.start < s.committed {
        return None;
    }
    match served_by(s, a) {
        Some(goal) => off_from(a, goal),
        None => None,
    }
}

/// Appends the conflicts of all goals, and then those of all roots off their goals.
pub fn goal_conflicts(s: &PlanState, out: &mut Vec<Conflict>) -> Result<(), AllocError>
    requires { IsWhole s.now }
    ensures { OnOk result (out.new.items ≡ out.old.items ++ goal_conflicts s.now) }
{
    add_open(s, out)?;
    add_off(s, out)?;
    Ok(())
}

fn add_open(s: &PlanState, out: &mut Vec<Conflict>) -> Result<(), AllocError>
    requires { IsWhole s.now }
    ensures { OnOk result (out.new.items ≡ out.old.items ++ flat_map (open_at s.now) s.now.goals) }
{
    let goals = s.goals.as_slice();
    for goal in goals {
        add(out, open_at(s, goal))?;
    }
    Ok(())
}

fn add_off(s: &PlanState, out: &mut Vec<Conflict>) -> Result<(), AllocError>
    ensures { OnOk result (out.new.items ≡ out.old.items ++ flat_map (off_at s.now) s.now.plan.activities) }
{
    let activities = s.plan.activities();
    for activity in activities {
        add(out, off_at(s, activity))?;
    }
    Ok(())
}
