use crate::alternatives::AstAlternative;
use crate::expressions::AstExpr;
use crate::links::AstLink;
use crate::parameters::AstParam;
use crate::reservations::AstReservation;
use pl_lists::{Copied, Items};
use pl_model::Name;
use std::alloc::{AllocError, Global};

/// A kind of activity as it is written.
#[derive(Drop)]
pub struct AstKind {
    pub name: Name,
    pub params: Items<AstParam>,
    pub duration: AstExpr,
    pub reservations: Items<AstReservation>,
    pub links: Items<AstLink>,
    pub alternatives: Items<AstAlternative>,
}

impl Copied for AstKind {
    fn copy(&self, alloc: Global) -> Result<AstKind, AllocError> {
        Ok(AstKind {
            name: self.name.copy(alloc)?,
            params: self.params.copy(alloc)?,
            duration: self.duration.copy(alloc)?,
            reservations: self.reservations.copy(alloc)?,
            links: self.links.copy(alloc)?,
            alternatives: self.alternatives.copy(alloc)?,
        })
    }
}
