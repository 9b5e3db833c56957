//! The lines before a journal, up to the line `journal`: each an item of one type, as a rate.
#![tactic(auto)]

mod asked;
mod found;
mod preface;
mod prefers;
mod problem;
mod rates;
mod reading;
mod refusal;
mod sharing;
mod stepping;
mod telling;

pub use asked::Asked;
pub use preface::Preface;
pub use problem::Problem;
pub use reading::read_preface;
pub use refusal::Refusal;
pub use sharing::shared_types;
pub use telling::refusal_line;
