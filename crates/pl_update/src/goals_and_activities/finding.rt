//! What is wrong with some goals and some activities.
ghost use Rattle.std.specs.Prelude.{◌≡◌, ◌++◌, OnOk};
ghost use Rattle.std.specs.List.{flat_map};
ghost use Rattle.std.specs.Option.{option_to_list};
ghost use Rattle.pl_semantics.specs.Whole.{IsWhole};
ghost use Rattle.pl_semantics.specs.Goals.{open_of, off_of};
ghost use Rattle.pl_semantics.specs.Activities.{wrong_of};
ghost use Rattle.pl_update.specs.GoalsAndActivities.Near.{near};

use pl_conflict::Conflict;
use pl_detect::{off_at, open_at, wrong_at};
use pl_semantics::PlanState;
use std::alloc::{AllocError, Global};

fn add(out: &mut Vec<Conflict>, conflict: Option<Conflict>) -> Result<(), AllocError>
    ensures { OnOk result (out.new.items ≡ out.old.items ++ option_to_list conflict) }
{
    match conflict {
        Some(conflict) => Ok(out.push(conflict)?),
        None => Ok(()),
    }
}

fn open_of(s: &PlanState, number: u32) -> Option<Conflict>
    requires { IsWhole s.now }
    ensures { option_to_list result ≡ open_of s.now number }
{
    open_at(s, s.goals.get(number)?)
}

fn off_of(s: &PlanState, id: u32) -> Option<Conflict>
    ensures { option_to_list result ≡ off_of s.now id }
{
    off_at(s, s.plan.get(id)?)
}

fn add_wrong_of(
    alloc: Global,
    s: &PlanState,
    id: u32,
    out: &mut Vec<Conflict>,
) -> Result<(), AllocError>
    requires { IsWhole s.now }
    ensures { OnOk result (out.new.items ≡ out.old.items ++ wrong_of s.now id) }
{
    match s.plan.get(id) {
        Some(a) => wrong_at(alloc, s, a, out),
        None => Ok(()),
    }
}

pub(crate) fn add_open(
    s: &PlanState,
    numbers: &[u32],
    out: &mut Vec<Conflict>,
) -> Result<(), AllocError>
    requires { IsWhole s.now }
    ensures { OnOk result (out.new.items ≡ out.old.items ++ flat_map (open_of s.now) numbers.now) }
{
    for number in numbers {
        add(out, open_of(s, *number))?;
    }
    Ok(())
}

pub(crate) fn add_off(s: &PlanState, ids: &[u32], out: &mut Vec<Conflict>) -> Result<(), AllocError>
    ensures { OnOk result (out.new.items ≡ out.old.items ++ flat_map (off_of s.now) ids.now) }
{
    for id in ids {
        add(out, off_of(s, *id))?;
    }
    Ok(())
}

fn add_wrong(
    alloc: Global,
    s: &PlanState,
    ids: &[u32],
    out: &mut Vec<Conflict>,
) -> Result<(), AllocError>
    requires { IsWhole s.now }
    ensures { OnOk result (out.new.items ≡ out.old.items ++ flat_map (wrong_of s.now) ids.now) }
{
    for id in ids {
        add_wrong_of(alloc, s, *id, out)?;
    }
    Ok(())
}

/// Appends the conflicts of the goals of these numbers, and of the activities of these ids, as roots and by themselves. A number or
/// an id under which nothing stands gives none.
#[tactic(auto, unfolding(crate::specs::GoalsAndActivities::Near::near))]
pub fn near(
    alloc: Global,
    s: &PlanState,
    numbers: &[u32],
    ids: &[u32],
    out: &mut Vec<Conflict>,
) -> Result<(), AllocError>
    requires { IsWhole s.now }
    ensures { OnOk result (out.new.items ≡ out.old.items ++ near s.now numbers.now ids.now) }
{
    add_open(s, numbers, out)?;
    add_off(s, ids, out)?;
    add_wrong(alloc, s, ids, out)?;
    Ok(())
}
