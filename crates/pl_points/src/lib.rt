//! Change points and their sums, maximal spans, and counted steps.
#![tactic(auto)]

mod calm;
mod comparing;
mod cutting;
mod laws;
mod limit;
mod mark;
mod mending;
mod noted;
mod pieces;
mod plain;
mod points;
mod searching;
mod sharing;
mod span;
mod steps;
mod told;

pub use calm::calm_until;
pub use laws::{laws_of_changes, laws_of_exchanges, laws_of_spans, laws_of_standing};
pub use limit::Limit;
pub use mark::Mark;
pub use mending::{forget, mend, mend_from};
pub use noted::Noted;
pub use plain::{PlainPoints, merge, place_of};
pub use points::Points;
pub use searching::leaving;
pub use sharing::shared_types;
pub use span::{Change, Span};
pub use steps::{Ledger, Quiet, Steps};
pub use told::Told;
