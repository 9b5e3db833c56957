//! Conflicts of a plan and their ordered set.
#![tactic(auto)]

mod conflict;
mod laws;
mod set;
mod sharing;

pub use conflict::{Code, Conflict};
pub use laws::{exchange_laws, order_laws, sorting_laws};
pub use set::ConflictSet;
pub use sharing::shared_types;
