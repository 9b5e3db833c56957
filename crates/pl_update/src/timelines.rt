//! The timelines of a plan state, and a set of conflicts that is mended as they change.

mod advancing;
mod asking;
mod capacities;
mod copying;
mod demanding;
mod exchange;
mod laws;
mod levels;
mod line;
mod lines;
mod making;
mod moments;
mod reading;
mod sharing;
mod states;

pub use laws::{laws_of_holding, laws_of_moments, laws_of_readings, laws_of_replacements};
pub use line::Line;
pub use lines::Lines;
pub use sharing::shared_types;
