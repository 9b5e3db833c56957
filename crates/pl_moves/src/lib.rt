//! Repair moves on a board: which may be made, and what they make of it.
#![tactic(auto)]

mod application;
mod attempting;
mod attempts;
mod change;
mod children;
mod counting;
mod dropping;
mod gone;
mod laws;
mod least;
mod legality;
mod lookups;
mod move_fault;
mod objecting;
mod objection;
mod properness;
mod runs;
mod sharing;
mod side;
mod sides;
mod starts;
mod trial;
mod undoing;

pub use application::{apply, make, make_change};
pub use attempting::attempt;
pub use attempts::Attempt;
pub use change::Change;
pub use children::root_for;
pub use counting::left_after;
pub use laws::laws_of_repairs;
pub use least::least_left;
pub use legality::{is_legal, legal};
pub use move_fault::MoveFault;
pub use properness::{is_free, is_proper, proper};
pub use runs::{RunCounts, go_on, goes_on, left_after_run, run_length, start_of};
pub use sharing::shared_types;
pub use trial::{Trial, trial_of};
