//! Choosers of the next repair.
#![tactic(auto)]

mod aiming;
mod alone;
mod best;
mod bounded;
mod choice;
mod draw;
mod fewest;
mod hopes;
mod in_turn;
mod least;
mod legality;
mod picked;
mod picking;
mod promising;
mod purpose;
mod remembering;
mod repairs;
mod runs;
mod search;
mod seeded;
mod sharing;
mod stages;
mod stretch;
mod trial;
mod tries;
mod want;

pub use least::Least;
pub use seeded::Seeded;
pub use sharing::shared_types;
