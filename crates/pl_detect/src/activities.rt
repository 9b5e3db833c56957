//! What is wrong with an activity that is not committed.
ghost use Rattle.std.specs.Prelude.{◌≡◌, ◌++◌, ◌&&◌, ◌==◌, not, is_none, All, OnOk, Some, length};
ghost use Rattle.pl_model.specs.Checked.{IsCheckedKind};
ghost use Rattle.pl_plan.specs.Activities.{activity_of};
ghost use Rattle.pl_plan.specs.Fitting.{alternatives_of, kind_of};
ghost use Rattle.pl_plan.specs.Values.{BindsBelow};
ghost use Rattle.pl_semantics.specs.Whole.{IsWhole};
ghost use Rattle.pl_semantics.specs.PlanStates.{end_at, row_of};
ghost use Rattle.pl_semantics.specs.Activities.{activity_conflicts, bad_values_at, bindings_of, overrun_at, row_above, undetailed_at, unset_at, wrong_at};

use crate::amounts::{add_bad_amounts, add_bad_duration};
use crate::filing::{add_when, at_start};
use crate::parameters::{add_bad_params, add_unset};
use crate::valuation::{evaluate, kind_at, row_above};
use pl_conflict::{Code, Conflict};
use pl_model::Kind;
use pl_plan::{Activity, Evaluated};
use pl_semantics::PlanState;
use std::alloc::{AllocError, Global};

fn add_bad_values(
    s: &PlanState,
    a: &Activity,
    kind: &Kind,
    above: &[Option<i64>],
    own: &[Option<i64>],
    out: &mut Vec<Conflict>,
) -> Result<(), AllocError>
    requires kind { kind_of s.now.model a.now ≡ Some kind.now }
    requires checked { IsCheckedKind s.now.model kind.now }
    requires above { above.now ≡ row_above s.now a.now.parent }
    requires named { All (BindsBelow (length above.now)) (bindings_of s.now a.now) }
    requires own { own.now ≡ row_of s.now a.now }
    requires len { length own.now ≡ length kind.now.params }
    ensures { OnOk result (out.new.items ≡ out.old.items ++ bad_values_at s.now a.now) }
{
    add_bad_params(s, a, kind, above, own, out)?;
    add_bad_duration(s, a, kind, own, out)?;
    add_bad_amounts(s, a, kind, own, out)?;
    Ok(())
}

// What its values leave undone. A firm activity has them all, in range.
fn add_of_values(
    s: &PlanState,
    a: &Activity,
    kind: &Kind,
    own: &Evaluated,
    above: &[Option<i64>],
    out: &mut Vec<Conflict>,
) -> Result<(), AllocError>
    requires whole { IsWhole s.now }
    requires live { activity_of a.now.id s.now.plan.activities ≡ Some a.now }
    requires kind { kind_of s.now.model a.now ≡ Some kind.now }
    requires checked { IsCheckedKind s.now.model kind.now }
    requires values { own.now.values ≡ row_of s.now a.now }
    requires end { own.now.end ≡ end_at s.now a.now }
    requires above { above.now ≡ row_above s.now a.now.parent }
    ensures { OnOk result (out.new.items ≡ out.old.items ++ unset_at s.now a.now ++ bad_values_at s.now a.now) }
{
    if own.end.is_some() {
        return Ok(());
    }
    let values = own.values.as_slice();
    add_unset(s, a, kind, values, out)?;
    add_bad_values(s, a, kind, above, values, out)?;
    Ok(())
}

fn add_undetailed(
    s: &PlanState,
    a: &Activity,
    kind: &Kind,
    out: &mut Vec<Conflict>,
) -> Result<(), AllocError>
    requires { kind_of s.now.model a.now ≡ Some kind.now }
    ensures { OnOk result (out.new.items ≡ out.old.items ++ undetailed_at s.now a.now) }
{
    let holds = !kind.alternatives.is_empty() && a.detail.is_none();
    add_when(out, holds, at_start(a, Code::Undetailed, 0, 0))?;
    Ok(())
}

fn add_overrun(
    s: &PlanState,
    a: &Activity,
    end: Option<u32>,
    out: &mut Vec<Conflict>,
) -> Result<(), AllocError>
    requires { end ≡ end_at s.now a.now }
    ensures { OnOk result (out.new.items ≡ out.old.items ++ overrun_at s.now a.now) }
{
    match end {
        Some(end) => {
            let is_past = s.model.get().horizon < end;
            add_when(out, is_past, at_start(a, Code::Overrun, 0, end))?;
            Ok(())
        }
        None => Ok(()),
    }
}

/// Appends what is wrong with one live activity, by what it comes to and by the values above it: late, without a
/// value, with bad values, not detailed, or past the horizon. With a committed one nothing is.
#[tactic(auto, unfolding(pl_semantics::specs::Activities::wrong_at))]
pub fn wrong_with(
    s: &PlanState,
    a: &Activity,
    own: &Evaluated,
    above: &[Option<i64>],
    out: &mut Vec<Conflict>,
) -> Result<(), AllocError>
    requires whole { IsWhole s.now }
    requires live { activity_of a.now.id s.now.plan.activities ≡ Some a.now }
    requires values { own.now.values ≡ row_of s.now a.now }
    requires end { own.now.end ≡ end_at s.now a.now }
    requires above { above.now ≡ row_above s.now a.now.parent }
    ensures { OnOk result (out.new.items ≡ out.old.items ++ wrong_at s.now a.now) }
{
    if a.start < s.committed {
        return Ok(());
    }
    let kind = kind_at(s, a);
    add_when(out, a.start <= s.moment, at_start(a, Code::Late, 0, 0))?;
    add_of_values(s, a, kind, own, above, out)?;
    add_undetailed(s, a, kind, out)?;
    add_overrun(s, a, own.end, out)?;
    Ok(())
}

/// The same of an activity that is evaluated first, where it is not committed.
#[tactic(auto, unfolding(pl_semantics::specs::Activities::wrong_at))]
pub fn wrong_at(
    alloc: Global,
    s: &PlanState,
    a: &Activity,
    out: &mut Vec<Conflict>,
) -> Result<(), AllocError>
    requires whole { IsWhole s.now }
    requires live { activity_of a.now.id s.now.plan.activities ≡ Some a.now }
    ensures { OnOk result (out.new.items ≡ out.old.items ++ wrong_at s.now a.now) }
{
    if a.start < s.committed {
        return Ok(());
    }
    let own = evaluate(alloc, s, a)?;
    let above = row_above(alloc, s, a)?;
    wrong_with(s, a, &own, above.as_slice(), out)?;
    Ok(())
}

/// Appends what is wrong with each activity, by rising id.
pub fn activity_conflicts(
    alloc: Global,
    s: &PlanState,
    out: &mut Vec<Conflict>,
) -> Result<(), AllocError>
    requires { IsWhole s.now }
    ensures { OnOk result (out.new.items ≡ out.old.items ++ activity_conflicts s.now) }
{
    let activities = s.plan.activities();
    for activity in activities {
        wrong_at(alloc, s, activity, out)?;
    }
    Ok(())
}
