ghost use Rattle.std.specs.Prelude.{◌≡◌, length};
ghost use Rattle.pl_model.specs.Values.{NamesBelow};
ghost use Rattle.pl_plan.specs.Known.{is_known, lacks_value, is_outside, is_bad};

use pl_model::{Expr, eval};

/// Whether each parameter that the expression names has a value.
pub fn is_known(expr: &Expr, values: &[Option<i64>]) -> bool
    requires { NamesBelow (length values.now) expr.now }
    ensures { result ≡ is_known values.now expr.now }
{
    match expr {
        Expr::Num(_) => true,
        Expr::Param(parameter) => values[*parameter as usize].is_some(),
        Expr::Apply(_, left, right) => {
            is_known(left.get(), values) && is_known(right.get(), values)
        }
    }
}

/// Whether the expression has no value though all that it names have one.
pub fn lacks_value(expr: &Expr, values: &[Option<i64>]) -> bool
    requires { NamesBelow (length values.now) expr.now }
    ensures { result ≡ lacks_value values.now expr.now }
{
    is_known(expr, values) && eval(expr, values).is_none()
}

fn is_outside(low: i64, high: i64, value: Option<i64>) -> bool
    ensures { result ≡ is_outside low high value }
{
    match value {
        Some(value) => !(low <= value && value <= high),
        None => false,
    }
}

/// Whether the expression comes to a value that is not from `low` to `high`, or to none though all
/// that it names have one.
pub fn is_bad(low: i64, high: i64, expr: &Expr, values: &[Option<i64>]) -> bool
    requires { NamesBelow (length values.now) expr.now }
    ensures { result ≡ is_bad low high values.now expr.now }
{
    is_outside(low, high, eval(expr, values)) || lacks_value(expr, values)
}
