//! What levels come to by rates for each moment, and where they leave their limits.
#![tactic(auto)]

mod course;
mod crossing;
mod effects;
mod form;
mod forms;
mod gaps;
mod gathering;
mod hinge;
mod laws;
mod ordering;
mod outside;
mod pushes;
mod pushing;
mod rate;
mod reading;
mod sharing;
mod telling;
mod walking;

pub use laws::laws_of_bases;
pub use outside::Outside;
pub use rate::Rate;
pub use reading::read_rate;
pub use sharing::shared_types;
pub use telling::forecast;
