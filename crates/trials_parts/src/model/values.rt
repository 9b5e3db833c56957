ghost use Rattle.std.specs.Prelude.{IfOk};
ghost use Rattle.pl_model.specs.Values.{NamesBelow};

use crate::asserting::holds;
use crate::reading::{value, word};
use pl_lists::Boxed;
use pl_model::{Expr, Op, bounds, eval};
use std::alloc::{AllocError, Global};
use std::process::Abort;

/// The operation on two expressions over two parameters.
fn apply(alloc: Global, op: Op, left: Expr, right: Expr) -> Result<Expr, AllocError>
    requires left { NamesBelow 2 left }
    requires right { NamesBelow 2 right }
    ensures { IfOk result (NamesBelow 2) }
{
    Ok(Expr::Apply(op, Boxed::new(alloc, left)?, Boxed::new(alloc, right)?))
}

/// Twice the first of two parameters, and one.
fn odd(alloc: Global) -> Result<Expr, AllocError>
    ensures { IfOk result (NamesBelow 2) }
{
    let twice = apply(alloc, Op::Mul, Expr::Param(0), Expr::Num(2))?;
    apply(alloc, Op::Add, twice, Expr::Num(1))
}

#[test]
fn values_and_bounds(rt: HostRuntime) {
    let odd = odd(rt.alloc()).expect(&rt, "memory");
    holds(&rt, "at 8", eval(&odd, &[Some(8), None]) == Some(17));
    holds(&rt, "no value", eval(&odd, &[None, Some(8)]) == None);
    holds(
        &rt,
        "its bounds",
        bounds(&odd, &[(1, 10), (0, 0)]) == (3, 21),
    );
}

/// How far from 0 a value may be.
const FAR: i64 = 1_000_000_000_000_000_000;

#[test]
fn values_that_are_far(rt: HostRuntime) {
    for number in [FAR, -FAR] {
        let value = eval(&Expr::Num(number), &[]);
        holds(&rt, "the furthest", value == Some(number));
    }
    let beyond = eval(&Expr::Num(FAR + 1), &[]);
    holds(&rt, "one beyond", beyond == None);
    let beyond = eval(&Expr::Param(0), &[Some(-FAR - 1)]);
    holds(&rt, "a parameter beyond", beyond == None);
}

/// Operations on two parameters: the value at 8 and -3, its bounds from -2 to 8 and from -3 to 5, the value at the furthest
/// of both, and its greatest bound up to there.
const OPERATIONS: &str = "+ 5 -5 13 none 1000000000000000000
- 11 -7 11 0 999999999999999998
* -24 -24 40 none 1000000000000000000
min -3 -3 5 1000000000000000000 1000000000000000000
max 8 -2 8 1000000000000000000 1000000000000000000";

fn operation(name: &str) -> Op {
    match name {
        "+" => Op::Add,
        "-" => Op::Sub,
        "*" => Op::Mul,
        "min" => Op::Min,
        _ => Op::Max,
    }
}

/// Whether the values come next.
fn has_values(expr: &Expr, rest: &mut &str) -> bool
    requires { NamesBelow 2 expr.now }
{
    let (low, high) = bounds(expr, &[(-2, 8), (-3, 5)]);
    eval(expr, &[Some(8), Some(-3)]) == value(rest)
        && Some(low) == value(rest)
        && Some(high) == value(rest)
}

/// Whether the values at the furthest come next.
fn has_far_values(expr: &Expr, rest: &mut &str) -> bool
    requires { NamesBelow 2 expr.now }
{
    let (_, most) = bounds(expr, &[(2, FAR), (2, FAR)]);
    eval(expr, &[Some(FAR), Some(FAR)]) == value(rest) && Some(most) == value(rest)
}

#[test]
fn operations(rt: HostRuntime) {
    for row in OPERATIONS.lines() {
        let mut rest = row;
        let op = operation(word(&mut rest));
        let expr = apply(rt.alloc(), op, Expr::Param(0), Expr::Param(1)).expect(&rt, "memory");
        holds(&rt, row, has_values(&expr, &mut rest));
        holds(&rt, row, has_far_values(&expr, &mut rest));
    }
}
