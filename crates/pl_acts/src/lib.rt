//! What is done to a plan in one turn, by its feeder and by the roles that act on it, and what a history under a lock holds. The lock itself
//! stands above.
#![tactic(auto)]

mod acting;
mod asking;
mod bell;
mod bells;
mod busy;
mod copying;
mod draft;
mod held;
mod inside;
mod logged;
mod look;
mod looking;
mod noted;
mod part;
mod planners;
mod repairing;
mod replicated;
mod role;
mod settling;
mod sharing;
mod sight;

pub use asking::ask;
pub use bells::{Bells, Listener};
pub use busy::Busy;
pub use draft::Draft;
pub use held::Held;
pub use look::Looked;
pub use noted::Noted;
pub use part::{Entries, Part};
pub use replicated::Replicated;
pub use role::{Acted, Role};
pub use sharing::shared_types;
pub use sight::{Sight, View};
