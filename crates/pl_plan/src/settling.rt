ghost use Rattle.std.specs.Prelude.{◌≡◌, ◌<◌, ◌≤◌, length, All, None};
ghost use Rattle.std.specs.Option.{option_map};
ghost use Rattle.pl_model.specs.Values.{value_of};
ghost use Rattle.pl_model.specs.Checked.{IsCheckedParam};
ghost use Rattle.pl_plan.specs.Values.{binding_of, BindsBelow, free_value, own_value, value_by, round_from, settled};

use crate::row::Row;
use pl_model::{Expr, Origin, Param, eval};

fn free_value(set: Option<i64>, default: Option<i64>) -> Option<i64>
    ensures { result ≡ free_value set default }
{
    match set {
        Some(value) => Some(value),
        None => default,
    }
}

// The value of a parameter that nothing binds.
fn own_value(param: &Param, set: Option<i64>, own: &[Option<i64>]) -> Option<i64>
    requires { IsCheckedParam (length own.now) param.now }
    ensures { result ≡ own_value param.now.origin set own.now }
{
    match &param.origin {
        Origin::Free(default) => free_value(set, *default),
        Origin::Dependent(expr) => eval(expr, own),
    }
}

// The value of a bound parameter; `None` where nothing binds it.
fn bound_value(bindings: &[(u8, Expr)], number: usize, above: &[Option<i64>]) -> Option<Option<i64>>
    requires { All (BindsBelow (length above.now)) bindings.now }
    ensures { result ≡ option_map (λ e. value_of e above.now) (binding_of number bindings.now) }
{
    for (bound, expr) in bindings {
        if *bound as usize == number {
            return Some(eval(expr, above));
        }
    }
    None
}

fn value_from(
    param: &Param,
    number: usize,
    set: Option<i64>,
    bindings: &[(u8, Expr)],
    above: &[Option<i64>],
    own: &[Option<i64>],
) -> Option<i64>
    requires param { IsCheckedParam (length own.now) param.now }
    requires bindings { All (BindsBelow (length above.now)) bindings.now }
    ensures { result ≡ value_by (binding_of number bindings.now) param.now.origin set above.now own.now }
{
    match bound_value(bindings, number, above) {
        Some(value) => value,
        None => own_value(param, set, own),
    }
}

// The value of each parameter, by what is known of the others.
fn round(
    params: &[Param],
    set: &[Option<i64>],
    bindings: &[(u8, Expr)],
    above: &[Option<i64>],
    own: &[Option<i64>],
) -> Row
    requires few { length params.now ≤ 16 }
    requires params { All (IsCheckedParam (length params.now)) params.now }
    requires set { length set.now ≡ length params.now }
    requires bindings { All (BindsBelow (length above.now)) bindings.now }
    requires own { length own.now ≡ length params.now }
    ensures value { result ≡ round_from 0 params.now set.now bindings.now above.now own.now }
    ensures len { length result ≡ length params.now }
{
    let mut next = Row::new();
    for (number, param) in params.iter().enumerate() {
        next.push(value_from(param, number, set[number], bindings, above, own));
    }
    next
}

/// The values of an activity's parameters over those of its parent.
pub(crate) fn settle(
    params: &[Param],
    set: &[Option<i64>],
    bindings: &[(u8, Expr)],
    above: &[Option<i64>],
) -> Row
    requires few { length params.now ≤ 16 }
    requires params { All (IsCheckedParam (length params.now)) params.now }
    requires set { length set.now ≡ length params.now }
    requires bindings { All (BindsBelow (length above.now)) bindings.now }
    ensures value { result ≡ settled params.now set.now bindings.now above.now }
    ensures len { length result ≡ length params.now }
{
    let mut own = Row::unknown(params.len());
    for _round in 0..params.len() {
        own = round(params, set, bindings, above, own.as_slice());
    }
    own
}
