//! Conflicts of goals and of other activities than some.
ghost use Rattle.std.specs.Prelude.{◌≡◌, ◌≤◌, filter, length};
ghost use Rattle.pl_semantics.specs.PlanStates.{among};
ghost use Rattle.pl_bounds.specs.Standing.{is_elsewhere, is_open_one};

use crate::standing::{count_if, is_plain};
use pl_conflict::{Code, Conflict, ConflictSet};

/// Whether it is one of these.
pub(crate) fn is_among(id: u32, ids: &[u32]) -> bool
    ensures { result ≡ among id ids.now }
{
    ids.iter().any(|other| *other == id)
}

fn is_open(conflict: &Conflict) -> bool
    ensures { result ≡ is_open_one conflict.now }
{
    conflict.code == Code::OpenGoal
}

// Whether it is an open goal, or of an activity that is none of these.
fn is_elsewhere(conflict: &Conflict, ids: &[u32]) -> bool
    ensures { result ≡ is_elsewhere ids.now conflict.now }
{
    is_plain(conflict.code) && (is_open(conflict) || !is_among(conflict.subject, ids))
}

/// How many goals are open, and how much is wrong with activities that are none of these.
pub(crate) fn count_elsewhere(conflicts: &ConflictSet, ids: &[u32]) -> u32
    ensures { result ≤ length (filter (is_elsewhere ids.now) conflicts.now) }
{
    let mut count = 0;
    for conflict in conflicts.iter() {
        count = count_if(is_elsewhere(conflict, ids), count);
    }
    count
}
