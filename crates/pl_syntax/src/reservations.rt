use crate::expressions::AstExpr;
use pl_lists::Copied;
use pl_model::{Name, Point};
use std::alloc::{AllocError, Global};

/// What an activity asks of a timeline, whose name comes first: `use`, `raise`, `lower`, `set` and `must`.
#[derive(Drop)]
pub enum AstReservation {
    Take(Name, AstExpr),
    Raise(Name, AstExpr, Point),
    Lower(Name, AstExpr, Point),
    Put(Name, Name, Point),
    Must(Name, Name),
}

impl Copied for AstReservation {
    fn copy(&self, alloc: Global) -> Result<AstReservation, AllocError> {
        match self {
            AstReservation::Take(name, amount) => {
                Ok(AstReservation::Take(name.copy(alloc)?, amount.copy(alloc)?))
            }
            AstReservation::Raise(name, amount, point) => Ok(AstReservation::Raise(
                name.copy(alloc)?,
                amount.copy(alloc)?,
                *point,
            )),
            AstReservation::Lower(name, amount, point) => Ok(AstReservation::Lower(
                name.copy(alloc)?,
                amount.copy(alloc)?,
                *point,
            )),
            AstReservation::Put(name, state, point) => Ok(AstReservation::Put(
                name.copy(alloc)?,
                state.copy(alloc)?,
                *point,
            )),
            AstReservation::Must(name, state) => {
                Ok(AstReservation::Must(name.copy(alloc)?, state.copy(alloc)?))
            }
        }
    }
}
