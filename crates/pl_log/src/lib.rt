//! The log of a run, kept in few bytes: all but its newest entries are packed.
#![tactic(auto)]

mod form;
mod log;
mod numbers;
mod pack;
mod packing;
mod parts;
mod reading;
mod sharing;
mod unpacking;

pub use log::Log;
pub use sharing::shared_types;
