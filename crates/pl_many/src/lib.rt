//! Several planners on one plan: a crew and its members, what each of them made, and a whole run.
#![tactic(auto)]

mod calls;
mod closing;
mod crew;
mod hiring;
mod laws;
mod lines;
mod member;
mod running;
mod sharing;
mod tally;

pub use crew::{Crew, Hired};
pub use laws::members_are_marked;
pub use lines::write_tallies;
pub use member::Member;
pub use pl_acts::{Acted, Part, Sight, View};
pub use pl_marks::{Author, Mark};
pub use running::run_crew;
pub use sharing::shared_types;
pub use tally::{Tally, tally_for};
