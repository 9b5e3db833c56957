//! The planning machine: one event at a time, each logged with its reply.
#![tactic(auto)]

mod ahead;
mod change;
mod choice;
mod counting;
mod found;
mod id_range;
mod machine;
mod period;
mod ranges;
mod repaired;
mod round;
mod schedule;
mod sharing;
mod sorting;
mod starting;
mod stop;
mod unsettled;

pub use choice::Choice;
pub use machine::Machine;
pub use repaired::Repaired;
pub use sharing::shared_types;
pub use stop::Stop;
