//! A round by one thread: repairs until there is a reason to rest, then what the executive chooses, up to the close.
#![tactic(auto)]

mod round;

pub use round::solo_round;
