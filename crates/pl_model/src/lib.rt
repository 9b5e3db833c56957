//! The types of a planning model: activity kinds with parameters, decompositions, temporal links and reservations
//! on capacity, level and state timelines. Timelines and kinds are numbered from 0 in the order of the text.
#![tactic(auto)]

mod alternatives;
mod evaluation;
mod expressions;
mod interval;
mod kinds;
mod links;
mod parameters;
mod reservations;
mod sharing;
mod timelines;
mod whole;

pub use alternatives::{Alternative, Order, Slot};
pub use evaluation::eval;
pub use expressions::{Expr, Op};
pub use interval::bounds;
pub use kinds::Kind;
pub use links::Link;
pub use parameters::{Origin, Param};
pub use reservations::{Point, Reservation};
pub use sharing::shared_types;
pub use timelines::Timeline;
pub use whole::Model;

/// A name of the model's text, as its bytes.
pub type Name = pl_lists::Items<u8>;
