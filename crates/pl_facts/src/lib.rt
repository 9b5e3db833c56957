//! The facts that a plan answers to: goals, options, and the bases of level and state timelines.
#![tactic(auto)]

mod bases;
mod goal;
mod goals;
mod options;
mod sharing;

pub use bases::Bases;
pub use goal::Goal;
pub use goals::Goals;
pub use options::Options;
pub use sharing::shared_types;
