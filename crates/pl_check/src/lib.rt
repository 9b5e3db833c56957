//! A text becomes a checked model, or its first fault is told.
#![tactic(auto)]

mod accepting;
mod checking;
mod counts;
mod cycles;
mod decomposing;
mod dependencies;
mod distances;
mod drafting;
mod drafts;
mod fault;
mod finding;
mod laws;
mod names;
mod networks;
mod numbering;
mod ranges;
mod refusals;
mod repeats;
mod reserving;
mod schedule;
mod schedules;
mod sharing;

pub use accepting::{Accepted, accept, too_long};
pub use checking::check;
pub use fault::{ModelFault, What};
pub use laws::texts_are_told_apart;
pub use sharing::shared_types;
