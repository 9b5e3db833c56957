//! One plan under a lock: a feeder, planners and an executive take turns on it. Each event of theirs is one entry of one history, and has its author.
#![tactic(auto)]

mod acting;
mod copying;
mod feeding;
mod looking;
mod passes;
mod plan;
mod sharing;
mod stopping;
mod turns;
mod viewing;
mod waiting;
mod working;

pub use plan::{Pass, SharedPlan};
pub use sharing::shared_types;
pub use working::{work, work_as};
