//! What each live activity comes to, kept by its id and mended near each change.

mod evaluations;
mod mending;
mod replacement;
mod searching;
mod sharing;
mod shifting;

pub use evaluations::Evaluations;
pub use replacement::replace;
pub use sharing::shared_types;
