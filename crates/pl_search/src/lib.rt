//! A chooser that looks ahead. Nothing rests on its search: what it finds is confirmed before it is proposed.
#![tactic(auto)]

mod beam;
mod branching;
mod confirming;
mod displacing;
mod draft;
mod expanding;
mod failures;
mod goals;
mod hopeless;
mod inserting;
mod insertion;
mod leftover;
mod look;
mod marks;
mod mending;
mod message;
mod node;
mod planning;
mod price;
mod repeating;
mod runs;
mod sharing;
mod tries;
mod undo;

pub use insertion::Insertion;
pub use sharing::shared_types;
