//! Simple temporal networks: the least times that meet every edge, or a negative cycle, which no times can meet.
#![tactic(auto)]

mod building;
mod laws;
mod net;
mod rising;
mod sharing;
mod solving;
mod starting;
mod verdict;
mod walking;

pub use laws::cycles_exclude_solutions;
pub use net::{Edge, Net};
pub use sharing::shared_types;
pub use solving::solve;
pub use verdict::Verdict;
