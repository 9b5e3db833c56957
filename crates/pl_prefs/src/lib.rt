//! What is preferred of a plan, how well a plan meets it, and how a plan without conflicts is bettered.
#![tactic(auto)]

mod changes;
mod choice;
mod choosing;
mod form;
mod forms;
mod gains;
mod levels;
mod prefer;
mod raising;
mod reading;
mod score_fault;
mod scored;
mod scores;
mod sharing;
mod stepping;
mod trying;
mod weights;
mod worths;

pub use prefer::Prefer;
pub use reading::read_prefer;
pub use score_fault::ScoreFault;
pub use scored::Scored;
pub use sharing::shared_types;
