//! Whether a value of an activity is not set.
ghost use Rattle.std.specs.Prelude.{◌≡◌, ◌∷◌, [], IfOk};
ghost use Rattle.std.specs.List.{list_any};
ghost use Rattle.pl_semantics.specs.Whole.{IsWhole};
ghost use Rattle.pl_update.specs.GoalsAndActivities.Near.{near};
ghost use Rattle.pl_bounds.specs.Standing.{is_unset_one};

use pl_conflict::{Code, Conflict};
use pl_semantics::PlanState;
use pl_update::goals_and_activities::near;
use std::alloc::{AllocError, Global};

fn is_unset_one(conflict: &Conflict) -> bool
    ensures { result ≡ is_unset_one conflict.now }
{
    conflict.code == Code::Unset
}

fn some_unset(conflicts: &[Conflict]) -> bool
    ensures { result ≡ list_any is_unset_one conflicts.now }
{
    conflicts.iter().any(|conflict| is_unset_one(conflict))
}

/// Whether a value of the activity of this id is not set.
pub(crate) fn is_unset_in(alloc: Global, s: &PlanState, id: u32) -> Result<bool, AllocError>
    requires { IsWhole s.now }
    ensures { IfOk result (λ is_so. is_so ≡ list_any is_unset_one (near s.now [] (id ∷ []))) }
{
    let mut wrong = Vec::new(alloc);
    near(alloc, s, &[], &[id], &mut wrong)?;
    let is_unset = some_unset(wrong.as_slice());
    Ok(is_unset)
}
