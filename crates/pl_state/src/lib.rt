//! A state: what it is at each moment, where a must is broken, and which sets take a step that is not allowed.
#![tactic(auto)]

mod allowed;
mod answer;
mod bound;
mod change;
mod deciding;
mod filling;
mod finding;
mod groups;
mod kept;
mod key;
mod laws;
mod listed;
mod making;
mod missing;
mod musts;
mod near;
mod pieces;
mod present;
mod reservation;
mod row;
mod rows;
mod sets;
mod sharing;
mod starts;
mod timeline;

pub use answer::{BadSet, BrokenMust, StateChange};
pub use laws::{change_laws, distinct_laws, order_laws, same_standing, told_in_order};
pub use reservation::{Must, Setting};
pub use sharing::shared_types;
pub use timeline::StateTimeline;
