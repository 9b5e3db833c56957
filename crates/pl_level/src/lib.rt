//! A level: its value at each moment, and the maximal spans at which it is below its least or above its most.
#![tactic(auto)]

mod bounded;
mod kept;
mod level;
mod reading;
mod reservation;
mod sharing;
mod windows;

pub use bounded::{add_bounded, remove_bounded};
pub use level::Level;
pub use reservation::{Effect, LevelChange};
pub use sharing::shared_types;
