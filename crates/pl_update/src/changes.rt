//! Changes of a plan state: what each comes to, and that it leaves the state whole.

mod laws;
mod replacement;

pub use laws::laws_of_plan_changes;
pub(crate) use replacement::come_again;
pub use replacement::{next_after, replace};
