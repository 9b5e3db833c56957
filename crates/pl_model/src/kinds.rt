use crate::Name;
use crate::alternatives::Alternative;
use crate::expressions::Expr;
use crate::links::Link;
use crate::parameters::Param;
use crate::reservations::Reservation;
use pl_lists::{Copied, Items};
use std::alloc::{AllocError, Global};

/// A kind of activity. `least_duration` is the least value of the duration over all parameter values, at least 1.
#[derive(Drop)]
pub struct Kind {
    pub name: Name,
    pub params: Items<Param>,
    pub duration: Expr,
    pub least_duration: u32,
    pub reservations: Items<Reservation>,
    pub links: Items<Link>,
    pub alternatives: Items<Alternative>,
}

impl Copied for Kind {
    fn copy(&self, alloc: Global) -> Result<Kind, AllocError> {
        Ok(Kind {
            name: self.name.copy(alloc)?,
            params: self.params.copy(alloc)?,
            duration: self.duration.copy(alloc)?,
            least_duration: self.least_duration,
            reservations: self.reservations.copy(alloc)?,
            links: self.links.copy(alloc)?,
            alternatives: self.alternatives.copy(alloc)?,
        })
    }
}
