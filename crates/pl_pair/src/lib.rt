//! Workers in threads of their own, as a planner and an executive, and a feeder that reads, writes and waits for each round.
#![tactic(auto)]

mod asking;
mod cut;
mod duty;
mod ended;
mod endings;
mod feeder;
mod hands;
mod pairing;
mod rounds;
mod run;
mod waiting;
mod worker;

pub use duty::Duty;
pub use ended::Ended;
pub use run::{run_pair, run_team};
