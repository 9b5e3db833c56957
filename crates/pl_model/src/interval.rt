ghost use Rattle.std.specs.Prelude.{◌≡◌, ℤ, ◌+ℤ◌, ◌-ℤ◌, ◌*ℤ◌, List, Option, Some, length};
ghost use Rattle.std.specs.Int.{int_min, int_max};
ghost use Rattle.pl_model.specs.Values.{value_of, NamesBelow};
ghost use Rattle.pl_model.specs.Bounds.{bounds_of, clipped, clipped_both, reach_of, AreWithin, IsWithin, least_of, greatest_of};

use crate::evaluation::{FARTHEST, product};
use crate::expressions::{Expr, Op};

/// The bounds of the expression's value, where each parameter lies in the range at its number.
pub fn bounds(expr: &Expr, ranges: &[(i64, i64)]) -> (i64, i64)
    requires { NamesBelow (length ranges.now) expr.now }
    ensures bounds { result ≡ bounds_of expr.now ranges.now }
    ensures holds { (values : List (Option ℤ)) (v : ℤ) → AreWithin values ranges.now → value_of expr.now values ≡ Some v → IsWithin result v }
{
    match expr {
        Expr::Num(number) => clip_both(*number, *number),
        Expr::Param(parameter) => {
            let (low, high) = ranges[*parameter as usize];
            clip_both(low, high)
        }
        Expr::Apply(op, left, right) => {
            let left = bounds(left.get(), ranges);
            let right = bounds(right.get(), ranges);
            reach(*op, left, right)
        }
    }
}

fn clip(number: i128) -> i64
    ensures { result ≡ clipped number }
{
    number.max(-FARTHEST).min(FARTHEST) as i64
}

fn clip_both(low: i64, high: i64) -> (i64, i64)
    ensures { result ≡ clipped_both (low, high) }
{
    (clip(low as i128), clip(high as i128))
}

fn sum(a: i64, b: i64) -> i64
    ensures { result ≡ clipped (a +ℤ b) }
{
    clip(a as i128 + b as i128)
}

fn difference(a: i64, b: i64) -> i64
    ensures { result ≡ clipped (a -ℤ b) }
{
    clip(a as i128 - b as i128)
}

fn lesser(a: i64, b: i64) -> i64
    ensures { result ≡ clipped (int_min a b) }
{
    clip(a.min(b) as i128)
}

fn greater(a: i64, b: i64) -> i64
    ensures { result ≡ clipped (int_max a b) }
{
    clip(a.max(b) as i128)
}

fn product_of(a: i64, b: i64) -> i128
    ensures { result ≡ a *ℤ b }
{
    product(a as i128, b as i128)
}

fn least(a: i128, b: i128, c: i128, d: i128) -> i128
    ensures { result ≡ least_of a b c d }
{
    a.min(b).min(c.min(d))
}

fn greatest(a: i128, b: i128, c: i128, d: i128) -> i128
    ensures { result ≡ greatest_of a b c d }
{
    a.max(b).max(c.max(d))
}

fn least_product(a: i64, b: i64, c: i64, d: i64) -> i64
    ensures { result ≡ clipped (least_of (a *ℤ c) (a *ℤ d) (b *ℤ c) (b *ℤ d)) }
{
    clip(least(
        product_of(a, c),
        product_of(a, d),
        product_of(b, c),
        product_of(b, d),
    ))
}

fn greatest_product(a: i64, b: i64, c: i64, d: i64) -> i64
    ensures { result ≡ clipped (greatest_of (a *ℤ c) (a *ℤ d) (b *ℤ c) (b *ℤ d)) }
{
    clip(greatest(
        product_of(a, c),
        product_of(a, d),
        product_of(b, c),
        product_of(b, d),
    ))
}

/// The bounds of the operation on two numbers in these bounds; those of a product lie at its corners.
fn reach(op: Op, left: (i64, i64), right: (i64, i64)) -> (i64, i64)
    ensures { result ≡ clipped_both (reach_of op left right) }
{
    let (a, b) = left;
    let (c, d) = right;
    match op {
        Op::Add => (sum(a, c), sum(b, d)),
        Op::Sub => (difference(a, d), difference(b, c)),
        Op::Mul => (least_product(a, b, c, d), greatest_product(a, b, c, d)),
        Op::Min => (lesser(a, c), lesser(b, d)),
        Op::Max => (greater(a, c), greater(b, d)),
    }
}
