//! What is wrong near what a change of a plan state concerns: which goals and which activities that is, what is wrong with them,
//! and that nothing else changes.

mod committed;
mod finding;
mod kept;
mod laws;
mod passed;
mod sharing;
mod touched;
mod turned;

pub use committed::committed_by;
pub use finding::near;
pub use kept::near_kept;
pub use laws::{
    laws_of_commits, laws_of_goal_changes, laws_of_moments, laws_of_nearness, laws_of_replacements,
};
pub use passed::passed_by;
pub use sharing::shared_types;
pub use touched::{Touched, each_once};
pub use turned::{Turned, turned_by};
