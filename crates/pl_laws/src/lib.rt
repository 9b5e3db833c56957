//! Laws of logs: what is committed stays, what was sent is told, and how many entries a run has.
#![tactic(auto)]

mod boards;
mod commands;
mod commits;
mod journals;
mod lengths;
mod run_lengths;
mod solo_logs;

pub use boards::{BoardReading, board_after_log};
pub use commands::laws_of_commands;
pub use commits::laws_of_commits;
pub use journals::laws_of_journals;
pub use lengths::laws_of_length;
pub use run_lengths::laws_of_runs;
pub use solo_logs::laws_of_solo_logs;
