ghost use Rattle.std.specs.Prelude.{◌≡◌, ◌<◌, ◌++◌, ◌∷◌, [], filter, map, IfOk, OnOk};
ghost use Rattle.pl_update.specs.GoalsAndActivities.Passed.{becomes_late, is_open_by, passed_goals, passed_ids, subject_of};

use crate::goals_and_activities::touched::Touched;
use pl_conflict::{Code, Conflict, ConflictSet};
use pl_plan::Activity;
use pl_semantics::PlanState;
use std::alloc::{AllocError, Global};

fn is_open_by(now: u32, conflict: &Conflict) -> bool
    ensures { result ≡ is_open_by now conflict.now }
{
    conflict.code == Code::OpenGoal && conflict.from <= now
}

fn add_if_open(numbers: &mut Vec<u32>, now: u32, conflict: &Conflict) -> Result<(), AllocError>
    ensures { OnOk result (numbers.new.items ≡ numbers.old.items ++ map subject_of (filter (is_open_by now) (conflict.now ∷ []))) }
{
    if is_open_by(now, conflict) {
        numbers.push(conflict.subject)?;
    }
    Ok(())
}

// Goes over the first conflicts alone, those from no later moment.
fn goals_passed(alloc: Global, set: &ConflictSet, now: u32) -> Result<Vec<u32>, AllocError>
    ensures { IfOk result (λ numbers. numbers.items ≡ passed_goals now set.now) }
{
    let mut numbers = Vec::new(alloc);
    for conflict in set.iter() {
        if now < conflict.from {
            return Ok(numbers);
        }
        add_if_open(&mut numbers, now, conflict)?;
    }
    Ok(numbers)
}

fn becomes_late(s: &PlanState, now: u32, a: &Activity) -> bool
    ensures { result ≡ becomes_late s.now now a.now }
{
    s.committed <= a.start && s.moment < a.start && a.start <= now
}

#[tactic(auto, unfolding(crate::specs::GoalsAndActivities::Passed::passed_ids))]
fn ids_late(alloc: Global, s: &PlanState, now: u32) -> Result<Vec<u32>, AllocError>
    ensures { IfOk result (λ ids. ids.items ≡ passed_ids s.now now) }
{
    s.plan
        .activities()
        .iter()
        .filter(|a| becomes_late(s, now, a))
        .map(|a| a.id)
        .collect(alloc)
}

fn ids_passed(alloc: Global, s: &PlanState, now: u32) -> Result<Vec<u32>, AllocError>
    ensures { IfOk result (λ ids. ids.items ≡ passed_ids s.now now) }
{
    if now < s.committed {
        return Ok(Vec::new(alloc));
    }
    ids_late(alloc, s, now)
}

/// What it concerns that the present moves on, given all conflicts: the open goals that can no longer be met, and the activities
/// that become late.
pub fn passed_by(
    alloc: Global,
    s: &PlanState,
    set: &ConflictSet,
    now: u32,
) -> Result<Touched, AllocError>
    ensures numbers { IfOk result (λ t. t.numbers.items ≡ passed_goals now set.now) }
    ensures ids { IfOk result (λ t. t.ids.items ≡ passed_ids s.now now) }
{
    let numbers = goals_passed(alloc, set, now)?;
    let ids = ids_passed(alloc, s, now)?;
    Ok(Touched { numbers, ids })
}
