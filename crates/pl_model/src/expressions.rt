use pl_lists::{Boxed, Copied};
use std::alloc::{AllocError, Global};

/// An operation on two whole numbers.
#[derive(Clone, Copy, PartialEq, Eq)]
pub enum Op {
    Add,
    Sub,
    Mul,
    Min,
    Max,
}

impl Copied for Op {
    fn copy(&self, _alloc: Global) -> Result<Op, AllocError> {
        Ok(*self)
    }
}

/// A whole-number expression; `Param` is the number of a parameter, counted from 0.
#[derive(Drop)]
pub enum Expr {
    Num(i64),
    Param(u8),
    Apply(Op, Boxed<Expr>, Boxed<Expr>),
}

impl Copied for Expr {
    fn copy(&self, alloc: Global) -> Result<Expr, AllocError> {
        match self {
            Expr::Num(number) => Ok(Expr::Num(*number)),
            Expr::Param(parameter) => Ok(Expr::Param(*parameter)),
            Expr::Apply(op, left, right) => {
                let left = Boxed::new(alloc, left.get().copy(alloc)?)?;
                let right = Boxed::new(alloc, right.get().copy(alloc)?)?;
                Ok(Expr::Apply(*op, left, right))
            }
        }
    }
}
