//! A plan state with its conflicts.
#![tactic(auto)]

mod asking;
mod board;
mod committing;
mod links;
mod measuring;
mod reading;
mod sharing;
mod watched;

pub use board::Board;
pub use sharing::shared_types;
