//! A journal checked against the machine that would have written it.
#![tactic(auto)]

mod judging;
mod laws;
mod sharing;
mod verdict;
mod verifying;

pub use laws::{laws_of_answers, laws_of_verdicts};
pub use sharing::shared_types;
pub use verdict::Verdict;
pub use verifying::verify;
