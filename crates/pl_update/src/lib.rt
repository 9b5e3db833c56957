//! What a change of a plan does to all that is kept of it: the plan itself, the values of its activities, and what is wrong
//! with goals and activities, with links, and on timelines.
#![tactic(auto)]

pub mod changes;
pub mod evaluations;
pub mod goals_and_activities;
pub mod links;
pub mod timelines;
