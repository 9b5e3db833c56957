//! A capacity: what is in use at each moment, and the maximal spans at which that is above the most.
#![tactic(auto)]

mod bounded;
mod capacity;
mod reservation;
mod sharing;
mod shifting;

pub use bounded::{add_bounded, remove_bounded};
pub use capacity::Capacity;
pub use reservation::Use;
pub use sharing::shared_types;
