//! A memory of choices: which of some moves leaves the fewest conflicts, as long as the plan is the same but for ids.
#![tactic(auto)]

mod difference;
mod laws;
mod memory;
mod noting;
mod renaming;
mod rows;
mod same;

pub use difference::Difference;
pub use laws::{laws_of_differences, laws_of_the_fewest};
pub use memory::{Answer, Memory};
pub use noting::going;
