//! What an activity comes to, and what comes to it from above.
ghost use Rattle.std.specs.Prelude.{◌≡◌, All, IfOk, Some, length, option_and_then};
ghost use Rattle.pl_model.specs.Checked.{IsCheckedKind, params_of};
ghost use Rattle.pl_plan.specs.Activities.{activity_of};
ghost use Rattle.pl_plan.specs.Fitting.{kind_of};
ghost use Rattle.pl_plan.specs.Values.{BindsBelow};
ghost use Rattle.pl_semantics.specs.Whole.{IsWhole};
ghost use Rattle.pl_semantics.specs.PlanStates.{row_of, end_at};
ghost use Rattle.pl_semantics.specs.Activities.{bindings_of, row_above};

use pl_lists::Items;
use pl_model::Kind;
use pl_plan::{Activity, Evaluated, laws_of_values};
use pl_semantics::PlanState;
use std::alloc::{AllocError, Global};

/// The kind of a live activity.
pub(crate) fn kind_at<'s>(s: &'s PlanState, a: &Activity) -> &'s Kind
    requires whole { IsWhole s.now }
    requires live { activity_of a.now.id s.now.plan.activities ≡ Some a.now }
    ensures kind { kind_of s.now.model a.now ≡ Some result.now }
    ensures checked { IsCheckedKind s.now.model result.now }
{
    &s.model.get().kinds.as_slice()[a.kind as usize]
}

/// The values and the end of a live activity.
pub(crate) fn evaluate(alloc: Global, s: &PlanState, a: &Activity) -> Result<Evaluated, AllocError>
    requires whole { IsWhole s.now }
    requires live { activity_of a.now.id s.now.plan.activities ≡ Some a.now }
    ensures values { IfOk result (λ e. e.values ≡ row_of s.now a.now) }
    ensures len { IfOk result (λ e. length e.values ≡ length (params_of (kind_of s.now.model a.now))) }
    ensures end { IfOk result (λ e. e.end ≡ end_at s.now a.now) }
{
    laws_of_values();
    s.plan.evaluate(alloc, s.model.get(), a.id)
}

/// The values of a live activity's parent, which the slot's bindings name; none at a root.
pub(crate) fn row_above(
    alloc: Global,
    s: &PlanState,
    a: &Activity,
) -> Result<Items<Option<i64>>, AllocError>
    requires whole { IsWhole s.now }
    requires live { activity_of a.now.id s.now.plan.activities ≡ Some a.now }
    ensures values { IfOk result (λ row. row ≡ row_above s.now a.now.parent) }
    ensures named { IfOk result (λ row. All (BindsBelow (length row)) (bindings_of s.now a.now)) }
{
    match a.parent {
        Some((parent, _)) => s.plan.values(alloc, s.model.get(), parent),
        None => Ok(Items::new(alloc)),
    }
}
