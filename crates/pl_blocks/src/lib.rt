//! Change points in blocks, whose summaries a walk reads in place of their points.
#![tactic(auto)]

mod block;
mod blocks;
mod finding;
mod laws;
mod mending;
mod sharing;
mod summary;
mod summing;

pub use blocks::BlockPoints;
pub use laws::laws_of_steps;
pub use sharing::shared_types;
