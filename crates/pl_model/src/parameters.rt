use crate::Name;
use crate::expressions::Expr;
use pl_lists::Copied;
use std::alloc::{AllocError, Global};

/// Where a parameter's value comes from: a person sets it, with a default or none, or it follows from others.
#[derive(Drop)]
pub enum Origin {
    Free(Option<i64>),
    Dependent(Expr),
}

impl Copied for Origin {
    fn copy(&self, alloc: Global) -> Result<Origin, AllocError> {
        match self {
            Origin::Free(default) => Ok(Origin::Free(*default)),
            Origin::Dependent(expr) => Ok(Origin::Dependent(expr.copy(alloc)?)),
        }
    }
}

/// A parameter of a kind, with its least and greatest value.
#[derive(Drop)]
pub struct Param {
    pub name: Name,
    pub low: i64,
    pub high: i64,
    pub origin: Origin,
}

impl Copied for Param {
    fn copy(&self, alloc: Global) -> Result<Param, AllocError> {
        Ok(Param {
            name: self.name.copy(alloc)?,
            low: self.low,
            high: self.high,
            origin: self.origin.copy(alloc)?,
        })
    }
}
