//! The activities of a plan, which stand in trees, and what their parameters come to.
#![tactic(auto)]

mod activity;
mod amounts;
mod counts;
mod evaluated;
mod families;
mod firmness;
mod index;
mod known;
mod latest;
mod laws;
mod plan;
mod repair;
mod row;
mod searching;
mod settling;
mod sharing;
mod trees;
mod values;

pub use activity::Activity;
pub use evaluated::Evaluated;
pub use known::{is_bad, is_known, lacks_value};
pub use laws::{laws_of_look_ups, laws_of_moves, laws_of_trees, laws_of_values};
pub use plan::Plan;
pub use repair::RepairMove;
pub use sharing::shared_types;
