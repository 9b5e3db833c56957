//! A `Vec` and a `Box` that contracts see as what they hold, and the copy that equals its source.
#![tactic(auto)]

mod boxed;
mod copied;
mod items;
mod sharing;

pub use boxed::Boxed;
pub use copied::Copied;
pub use items::Items;
pub use sharing::{may_be_shared, shared_types};
