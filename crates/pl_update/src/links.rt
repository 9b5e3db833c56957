//! What a change of a plan state does to the conflicts of temporal links and orders of slots, found near what changes.

mod breaking;
mod laws;
mod mended;
mod near;
mod passing;
mod placing;
mod replacement;
mod sharing;
mod taking;

pub use laws::{laws_of_keeping, laws_of_passing};
pub use mended::Mended;
pub use passing::pass;
pub use replacement::replace;
pub use sharing::shared_types;
