use crate::Name;
use crate::expressions::Expr;
use crate::reservations::Point;
use pl_lists::{Copied, Items};
use std::alloc::{AllocError, Global};

/// A child of a decomposition. A binding gives a parameter of the child an expression over the parent's parameters.
#[derive(Drop)]
pub struct Slot {
    pub name: Name,
    pub kind: u32,
    pub bindings: Items<(u8, Expr)>,
}

impl Copied for Slot {
    fn copy(&self, alloc: Global) -> Result<Slot, AllocError> {
        Ok(Slot {
            name: self.name.copy(alloc)?,
            kind: self.kind,
            bindings: self.bindings.copy(alloc)?,
        })
    }
}

/// The second point lies from `low` to `high` after the first. `first` and `second` are slot numbers, `None` the parent.
#[derive(Drop)]
pub struct Order {
    pub first: Option<u32>,
    pub first_end: Point,
    pub second: Option<u32>,
    pub second_end: Point,
    pub low: i64,
    pub high: i64,
}

impl Copied for Order {
    fn copy(&self, _alloc: Global) -> Result<Order, AllocError> {
        Ok(Order {
            first: self.first,
            first_end: self.first_end,
            second: self.second,
            second_end: self.second_end,
            low: self.low,
            high: self.high,
        })
    }
}

/// One way to decompose a kind. `offsets` are the slots' earliest starts after the parent's start.
#[derive(Drop)]
pub struct Alternative {
    pub slots: Items<Slot>,
    pub orders: Items<Order>,
    pub offsets: Items<u32>,
}

impl Copied for Alternative {
    fn copy(&self, alloc: Global) -> Result<Alternative, AllocError> {
        Ok(Alternative {
            slots: self.slots.copy(alloc)?,
            orders: self.orders.copy(alloc)?,
            offsets: self.offsets.copy(alloc)?,
        })
    }
}
