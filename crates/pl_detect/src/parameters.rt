//! Parameters without a value, and those whose value is bad.
ghost use Rattle.std.specs.Prelude.{◌≡◌, ◌<◌, ◌++◌, All, None, OnOk, Some, IfSome, length, slice_index_or};
ghost use Rattle.std.specs.List.{flat_map};
ghost use Rattle.std.specs.Option.{option_copied};
ghost use Rattle.pl_model.specs.Checked.{IsCheckedKind, IsCheckedParam};
ghost use Rattle.pl_model.specs.Values.{NamesBelow};
ghost use Rattle.pl_plan.specs.Fitting.{kind_of};
ghost use Rattle.pl_plan.specs.Values.{BindsBelow, binding_of};
ghost use Rattle.pl_plan.specs.Known.{is_outside, is_unset, is_bad_param, lacks_by};
ghost use Rattle.pl_semantics.specs.PlanStates.{row_of};
ghost use Rattle.pl_semantics.specs.Activities.{bad_param, bindings_of, params_at, row_above, unset_at};

use crate::bindings::binding_of;
use crate::filing::{add_when, at_start};
use pl_conflict::{Code, Conflict};
use pl_model::{Expr, Kind, Origin, Param};
use pl_plan::{Activity, lacks_value};
use pl_semantics::PlanState;
use std::alloc::AllocError;

fn is_unset(binding: Option<&Expr>, origin: &Origin, value: Option<i64>) -> bool
    ensures { result ≡ is_unset (option_copied binding.entry) origin.now value }
{
    match (binding, origin) {
        (None, Origin::Free(_)) => value.is_none(),
        _ => false,
    }
}

/// Appends the conflicts of the free parameters that have no value.
pub(crate) fn add_unset(
    s: &PlanState,
    a: &Activity,
    kind: &Kind,
    own: &[Option<i64>],
    out: &mut Vec<Conflict>,
) -> Result<(), AllocError>
    requires kind { kind_of s.now.model a.now ≡ Some kind.now }
    requires checked { IsCheckedKind s.now.model kind.now }
    requires own { own.now ≡ row_of s.now a.now }
    requires len { length own.now ≡ length kind.now.params }
    ensures { OnOk result (out.new.items ≡ out.old.items ++ unset_at s.now a.now) }
{
    let bindings = s.bindings_of(a);
    let params = kind.params.as_slice();
    for (number, param) in params.iter().enumerate() {
        let holds = is_unset(binding_of(bindings, number), &param.origin, own[number]);
        add_when(out, holds, at_start(a, Code::Unset, number as u32, 0))?;
    }
    Ok(())
}

fn is_outside(low: i64, high: i64, value: Option<i64>) -> bool
    ensures { result ≡ is_outside low high value }
{
    match value {
        Some(value) => !(low <= value && value <= high),
        None => false,
    }
}

// Whether what gives a parameter its value has none though all that it names have one.
fn lacks_by(
    binding: Option<&Expr>,
    param: &Param,
    above: &[Option<i64>],
    own: &[Option<i64>],
) -> bool
    requires binding { IfSome binding (λ e. NamesBelow (length above.now) e.now) }
    requires param { IsCheckedParam (length own.now) param.now }
    ensures { result ≡ lacks_by (option_copied binding.entry) param.now.origin above.now own.now }
{
    match (binding, &param.origin) {
        (Some(expr), _) => lacks_value(expr, above),
        (None, Origin::Free(_)) => false,
        (None, Origin::Dependent(expr)) => lacks_value(expr, own),
    }
}

fn is_bad_param(
    number: usize,
    param: &Param,
    bindings: &[(u8, Expr)],
    above: &[Option<i64>],
    own: &[Option<i64>],
) -> bool
    requires number { number < length own.now }
    requires param { IsCheckedParam (length own.now) param.now }
    requires bindings { All (BindsBelow (length above.now)) bindings.now }
    ensures { result ≡ is_bad_param (binding_of number bindings.now) param.now above.now own.now (slice_index_or own.now number None) }
{
    is_outside(param.low, param.high, own[number])
        || lacks_by(binding_of(bindings, number), param, above, own)
}

/// Appends the conflicts of the parameters whose value is out of range, or that have none though
/// all that gives it has one.
pub(crate) fn add_bad_params(
    s: &PlanState,
    a: &Activity,
    kind: &Kind,
    above: &[Option<i64>],
    own: &[Option<i64>],
    out: &mut Vec<Conflict>,
) -> Result<(), AllocError>
    requires kind { kind_of s.now.model a.now ≡ Some kind.now }
    requires checked { IsCheckedKind s.now.model kind.now }
    requires above { above.now ≡ row_above s.now a.now.parent }
    requires named { All (BindsBelow (length above.now)) (bindings_of s.now a.now) }
    requires own { own.now ≡ row_of s.now a.now }
    requires len { length own.now ≡ length kind.now.params }
    ensures { OnOk result (out.new.items ≡ out.old.items ++ flat_map (bad_param s.now a.now) (params_at s.now a.now)) }
{
    let bindings = s.bindings_of(a);
    let params = kind.params.as_slice();
    for (number, param) in params.iter().enumerate() {
        let holds = is_bad_param(number, param, bindings, above, own);
        add_when(out, holds, at_start(a, Code::BadValue, number as u32, 0))?;
    }
    Ok(())
}
