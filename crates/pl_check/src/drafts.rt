use pl_lists::{Copied, Items};
use pl_model::{Expr, Link, Name, Order, Param, Reservation, Slot, Timeline};
use std::alloc::{AllocError, Global};

/// A way to decompose a kind, its names numbered, before its offsets are known.
#[derive(Drop)]
pub struct DraftAlternative {
    pub slots: Items<Slot>,
    pub orders: Items<Order>,
}

impl Copied for DraftAlternative {
    fn copy(&self, alloc: Global) -> Result<DraftAlternative, AllocError> {
        Ok(DraftAlternative {
            slots: self.slots.copy(alloc)?,
            orders: self.orders.copy(alloc)?,
        })
    }
}

/// A kind of activity, its names numbered, before its least duration is known.
#[derive(Drop)]
pub struct DraftKind {
    pub name: Name,
    pub params: Items<Param>,
    pub duration: Expr,
    pub reservations: Items<Reservation>,
    pub links: Items<Link>,
    pub alternatives: Items<DraftAlternative>,
}

impl Copied for DraftKind {
    fn copy(&self, alloc: Global) -> Result<DraftKind, AllocError> {
        Ok(DraftKind {
            name: self.name.copy(alloc)?,
            params: self.params.copy(alloc)?,
            duration: self.duration.copy(alloc)?,
            reservations: self.reservations.copy(alloc)?,
            links: self.links.copy(alloc)?,
            alternatives: self.alternatives.copy(alloc)?,
        })
    }
}

/// A timeline or a kind, its names numbered.
#[derive(Drop)]
pub enum Draft {
    Timeline(Timeline),
    Kind(DraftKind),
}
