ghost use Rattle.std.specs.Prelude.{◌≡◌, ◌≤ℤ◌, ◌*ℤ◌, length, pos, negsuc};
ghost use Rattle.pl_model.specs.Values.{value_of, limited, outcome_of, NamesBelow};

use crate::expressions::{Expr, Op};

/// How far a value may lie from 0.
pub const FARTHEST: i128 = 1_000_000_000_000_000_000;

/// The value of the expression where each parameter has the value at its number: none where a parameter that it names
/// has none, or where a part of it comes to a value too far from 0.
pub fn eval(expr: &Expr, values: &[Option<i64>]) -> Option<i64>
    requires { NamesBelow (length values.now) expr.now }
    ensures { result ≡ value_of expr.now values.now }
{
    match expr {
        Expr::Num(number) => limit(*number as i128),
        Expr::Param(parameter) => limit(values[*parameter as usize]? as i128),
        Expr::Apply(op, left, right) => {
            let left = eval(left.get(), values)?;
            let right = eval(right.get(), values)?;
            apply(*op, left, right)
        }
    }
}

fn limit(number: i128) -> Option<i64>
    ensures { result ≡ limited number }
{
    if -FARTHEST <= number && number <= FARTHEST {
        Some(number as i64)
    } else {
        None
    }
}

/// The product of two numbers of 64 bits, which does not wrap in 128.
pub fn product(left: i128, right: i128) -> i128
    requires left { (negsuc 9223372036854775807 ≤ℤ left) × (left ≤ℤ pos 9223372036854775807) }
    requires right { (negsuc 9223372036854775807 ≤ℤ right) × (right ≤ℤ pos 9223372036854775807) }
    ensures { result ≡ left *ℤ right }
{
    left * right
}

fn apply(op: Op, left: i64, right: i64) -> Option<i64>
    ensures { result ≡ limited (outcome_of op left right) }
{
    let left = left as i128;
    let right = right as i128;
    match op {
        Op::Add => limit(left + right),
        Op::Sub => limit(left - right),
        Op::Mul => limit(product(left, right)),
        Op::Min => limit(left.min(right)),
        Op::Max => limit(left.max(right)),
    }
}
