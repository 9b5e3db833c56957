//! The repair moves that are tried for a conflict.
#![tactic(auto)]

mod activities;
mod avoiding;
mod chooser;
mod conflicts;
mod cuts;
mod goals;
mod help;
mod helping;
mod links;
mod making;
mod marks;
mod membership;
mod numbers;
mod orders;
mod proposal;
mod reading;
mod repairs;
mod role;
mod seeking;
mod sharing;
mod shifting;
mod starts;
mod strides;
mod stuck;
mod telling;
mod timelines;
mod told;
mod user_list;
mod users;
mod worth;

pub use activities::add_all_assigns;
pub use chooser::Chooser;
pub use conflicts::candidates;
pub use making::make;
pub use membership::is_candidate;
pub use numbers::{places, spread};
pub use proposal::Proposal;
pub use sharing::shared_types;
pub use stuck::is_stuck;
