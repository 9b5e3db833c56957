//! Who made which entry of a log that several act on: a mark for each entry past those that were handed in.
#![tactic(auto)]

mod author;
mod laws;
mod mark;
mod marks;
mod sharing;

pub use author::Author;
pub use laws::marks_are_numbered;
pub use mark::Mark;
pub use marks::Marks;
pub use sharing::shared_types;
