//! One value under a ticket lock, and the history that it stands for. How long the history is can be read without the lock.
#![tactic(auto)]

mod crew;
mod gate;
mod known;
mod laws;
mod lock;
mod logged;
mod owner;
mod pass;
mod steps;
mod threads;
mod turns;

pub use gate::{Gate, NoGate};
pub use known::{Crew, Known};
pub use laws::own_entries_are_picked;
pub use lock::TurnLock;
pub use logged::Logged;
pub use pass::Pass;
pub use threads::crosses;
