ghost use Rattle.std.specs.Prelude.{◌≡◌, IfOk, map, filter, take_while};
ghost use Rattle.pl_conflict.specs.Sorting.{AreInOrder};
ghost use Rattle.pl_semantics.specs.Grants.{touches_before};
ghost use Rattle.pl_update.specs.GoalsAndActivities.Committed.{is_open_goal, names_activity, is_of_activity, missed_goals, early_ids};
ghost use Rattle.pl_update.specs.GoalsAndActivities.Passed.{subject_of};

use crate::goals_and_activities::touched::Touched;
use pl_conflict::{Code, Conflict, ConflictSet};
use std::alloc::{AllocError, Global};

fn is_open_goal(conflict: &Conflict) -> bool
    ensures { result ≡ is_open_goal conflict.now }
{
    conflict.code == Code::OpenGoal
}

fn names_activity(code: Code) -> bool
    ensures { result ≡ names_activity code }
{
    matches!(
        code,
        Code::OffGoal | Code::Late | Code::Unset | Code::BadValue | Code::Undetailed | Code::Overrun
    )
}

// Goes over the first conflicts alone, those from before the moment.
fn early(alloc: Global, set: &ConflictSet, h: u32) -> Result<Vec<Conflict>, AllocError>
    ensures items { IfOk result (λ all. all.items ≡ take_while (touches_before h) set.now) }
    ensures ordered { AreInOrder set.now }
{
    set.iter()
        .take_while(|k| k.from < h)
        .copied()
        .collect(alloc)
}

fn goals_among(alloc: Global, conflicts: &[Conflict]) -> Result<Vec<u32>, AllocError>
    ensures { IfOk result (λ numbers. numbers.items ≡ map subject_of (filter is_open_goal conflicts.now)) }
{
    conflicts
        .iter()
        .filter(|k| is_open_goal(k))
        .map(|k| k.subject)
        .collect(alloc)
}

fn ids_among(alloc: Global, conflicts: &[Conflict]) -> Result<Vec<u32>, AllocError>
    ensures { IfOk result (λ ids. ids.items ≡ map subject_of (filter is_of_activity conflicts.now)) }
{
    conflicts
        .iter()
        .filter(|k| names_activity(k.code))
        .map(|k| k.subject)
        .collect(alloc)
}

/// What a commit up to a moment concerns, given all conflicts: the open goals that can no longer be met, and the activities of
/// which something is wrong before it.
pub fn committed_by(alloc: Global, set: &ConflictSet, h: u32) -> Result<Touched, AllocError>
    ensures numbers { IfOk result (λ t. t.numbers.items ≡ missed_goals h set.now) }
    ensures ids { IfOk result (λ t. t.ids.items ≡ early_ids h set.now) }
{
    let early = early(alloc, set, h)?;
    let numbers = goals_among(alloc, early.as_slice())?;
    let ids = ids_among(alloc, early.as_slice())?;
    Ok(Touched { numbers, ids })
}
