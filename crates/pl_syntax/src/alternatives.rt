use crate::expressions::AstExpr;
use pl_lists::{Copied, Items};
use pl_model::{Name, Point};
use std::alloc::{AllocError, Global};

/// A child of a decomposition, with the parameters that its parent gives it.
#[derive(Drop)]
pub struct AstSlot {
    pub name: Name,
    pub kind: Name,
    pub bindings: Items<(Name, AstExpr)>,
}

impl Copied for AstSlot {
    fn copy(&self, alloc: Global) -> Result<AstSlot, AllocError> {
        Ok(AstSlot {
            name: self.name.copy(alloc)?,
            kind: self.kind.copy(alloc)?,
            bindings: self.bindings.copy(alloc)?,
        })
    }
}

/// The second point lies from `low` to `high` after the first. `first` and `second` name slots, `None` is the parent.
#[derive(Drop)]
pub struct AstOrder {
    pub first: Option<Name>,
    pub first_end: Point,
    pub second: Option<Name>,
    pub second_end: Point,
    pub low: i64,
    pub high: i64,
}

impl Copied for AstOrder {
    fn copy(&self, alloc: Global) -> Result<AstOrder, AllocError> {
        Ok(AstOrder {
            first: self.first.copy(alloc)?,
            first_end: self.first_end,
            second: self.second.copy(alloc)?,
            second_end: self.second_end,
            low: self.low,
            high: self.high,
        })
    }
}

/// One way to decompose a kind.
#[derive(Drop)]
pub struct AstAlternative {
    pub slots: Items<AstSlot>,
    pub orders: Items<AstOrder>,
}

impl Copied for AstAlternative {
    fn copy(&self, alloc: Global) -> Result<AstAlternative, AllocError> {
        Ok(AstAlternative {
            slots: self.slots.copy(alloc)?,
            orders: self.orders.copy(alloc)?,
        })
    }
}
