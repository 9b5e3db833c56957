use crate::expressions::Expr;
use pl_lists::Copied;
use std::alloc::{AllocError, Global};

/// An end of an activity.
#[derive(Clone, Copy, PartialEq, Eq)]
pub enum Point {
    Start,
    End,
}

impl Copied for Point {
    fn copy(&self, _alloc: Global) -> Result<Point, AllocError> {
        Ok(*self)
    }
}

/// What an activity asks of a timeline, whose number comes first. `Put` and `Must` name a state by its number.
#[derive(Drop)]
pub enum Reservation {
    Take(u32, Expr),
    Raise(u32, Expr, Point),
    Lower(u32, Expr, Point),
    Put(u32, u32, Point),
    Must(u32, u32),
}

impl Copied for Reservation {
    fn copy(&self, alloc: Global) -> Result<Reservation, AllocError> {
        match self {
            Reservation::Take(line, amount) => Ok(Reservation::Take(*line, amount.copy(alloc)?)),
            Reservation::Raise(line, amount, point) => {
                Ok(Reservation::Raise(*line, amount.copy(alloc)?, *point))
            }
            Reservation::Lower(line, amount, point) => {
                Ok(Reservation::Lower(*line, amount.copy(alloc)?, *point))
            }
            Reservation::Put(line, state, point) => Ok(Reservation::Put(*line, *state, *point)),
            Reservation::Must(line, state) => Ok(Reservation::Must(*line, *state)),
        }
    }
}
