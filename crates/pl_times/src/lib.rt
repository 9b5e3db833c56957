//! The earliest and the latest time of each point of a simple temporal network, in near linear time, and the paths of
//! edges that show that no solution lies beyond.
#![tactic(auto)]

mod bounding;
mod bounds;
mod closing;
mod index;
mod laws;
mod mirror;
mod raising;
mod rising;
mod settling;
mod sharing;
mod timing;
mod tracing;
mod trying;

pub use bounding::bounds_of;
pub use bounds::Bounds;
pub use laws::laws_of_paths;
pub use sharing::shared_types;
pub use timing::Timing;
pub use tracing::{path_from_origin, path_to_origin};
