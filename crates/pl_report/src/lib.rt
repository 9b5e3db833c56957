//! A replayed journal's report and other texts on it, the line of the demonstration, and the demonstration's input.
#![tactic(auto)]

mod activities;
mod commands;
mod conflicts;
mod demonstration;
mod demonstration_model;
mod flexes;
mod forecasts;
mod goals;
mod heading;
mod improvements;
mod laws;
mod reporting;
mod verdicts;

pub use demonstration::demo_input;
pub use demonstration_model::laws_of_demonstration;
pub use flexes::flex_text;
pub use forecasts::forecast_text;
pub use improvements::improvement_text;
pub use laws::{demo_input_laws, laws_of_reports};
pub use reporting::report;
pub use verdicts::verdict_line;
