//! What the activities of a plan ask of timelines, and every conflict of a plan, found anew.
#![tactic(auto)]

mod activities;
mod amounts;
mod asking;
mod bases;
mod bindings;
mod capacities;
mod conflicts;
mod detection;
mod filing;
mod goals;
mod laws;
mod levels;
mod links;
mod outside;
mod parameters;
mod placing;
mod states;
mod valuation;

pub use activities::{activity_conflicts, wrong_at, wrong_with};
pub use asking::{demands, demands_at, demands_with};
pub use conflicts::{line_conflicts, timeline_conflicts};
pub use detection::{detect, detect_with, plan_conflicts};
pub use goals::{goal_conflicts, off_at, open_at};
pub use laws::laws_of_demands;
pub use links::{add_all_broken, add_broken, add_conflict_of, link_conflicts};
pub use outside::{add_bad_steps, add_musts, add_outside};
pub use placing::placed_of;
