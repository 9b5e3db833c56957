use crate::expressions::AstExpr;
use pl_lists::Copied;
use pl_model::Name;
use std::alloc::{AllocError, Global};

/// What stands behind a parameter's range: nothing, a default, or an expression that it equals.
#[derive(Drop)]
pub enum AstOrigin {
    Plain,
    Default(i64),
    Equals(AstExpr),
}

impl Copied for AstOrigin {
    fn copy(&self, alloc: Global) -> Result<AstOrigin, AllocError> {
        match self {
            AstOrigin::Plain => Ok(AstOrigin::Plain),
            AstOrigin::Default(value) => Ok(AstOrigin::Default(*value)),
            AstOrigin::Equals(value) => Ok(AstOrigin::Equals(value.copy(alloc)?)),
        }
    }
}

/// A parameter of a kind as it is written: `low` and `high` are both within its range.
#[derive(Drop)]
pub struct AstParam {
    pub name: Name,
    pub low: i64,
    pub high: i64,
    pub origin: AstOrigin,
}

impl Copied for AstParam {
    fn copy(&self, alloc: Global) -> Result<AstParam, AllocError> {
        Ok(AstParam {
            name: self.name.copy(alloc)?,
            low: self.low,
            high: self.high,
            origin: self.origin.copy(alloc)?,
        })
    }
}
