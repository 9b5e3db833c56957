use pl_lists::{Boxed, Copied};
use pl_model::{Name, Op};
use std::alloc::{AllocError, Global};

/// An expression as it is written. Operators group from the left.
#[derive(Drop)]
pub enum AstExpr {
    Num(i64),
    Name(Name),
    Apply(Op, Boxed<AstExpr>, Boxed<AstExpr>),
}

impl Copied for AstExpr {
    fn copy(&self, alloc: Global) -> Result<AstExpr, AllocError> {
        match self {
            AstExpr::Num(number) => Ok(AstExpr::Num(*number)),
            AstExpr::Name(name) => Ok(AstExpr::Name(name.copy(alloc)?)),
            AstExpr::Apply(op, left, right) => {
                let left = Boxed::new(alloc, left.get().copy(alloc)?)?;
                let right = Boxed::new(alloc, right.get().copy(alloc)?)?;
                Ok(AstExpr::Apply(*op, left, right))
            }
        }
    }
}
