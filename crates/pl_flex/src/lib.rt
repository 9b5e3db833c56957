//! How far the activities of a plan can move when the others move with them, with a schedule that meets each end and a path
//! of constraints that shows that none lies beyond.
#![tactic(auto)]

mod durations;
mod edges;
mod flex;
mod flexed;
mod flexing;
mod links;
mod orders;
mod places;
mod placing;
mod sharing;
mod window;
mod windows;

pub use flex::Flex;
pub use flexed::Flexed;
pub use flexing::flex_windows;
pub use sharing::shared_types;
pub use window::Window;
