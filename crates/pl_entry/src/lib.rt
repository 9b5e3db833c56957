//! What a planning machine is asked and answers, how far a commit may go, and which activities are due.
#![tactic(auto)]

mod entry;
mod event;
mod horizon;
mod laws;
mod reply;
mod sending;
mod sharing;

pub use entry::Entry;
pub use event::{Bytes, Event};
pub use horizon::{best, target};
pub use laws::{laws_of_due, laws_of_horizon};
pub use reply::{Reason, Reply, Values};
pub use sending::due;
pub use sharing::shared_types;
