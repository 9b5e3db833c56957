//! The temporal store: activities with their ends, and which temporal links and orders of slots
//! they break.
#![tactic(auto)]

mod asked;
mod broken;
mod changes;
mod exchange;
mod files;
mod filing;
mod index;
mod keys;
mod laws;
mod links;
mod mending;
mod moments;
mod near;
mod orders;
mod partners;
mod placed;
mod sharing;
mod standing;
mod store;
mod walking;
mod windows;

pub use broken::Broken;
pub use changes::Changes;
pub use laws::laws_of_links;
pub use links::Links;
pub use placed::Placed;
pub use sharing::shared_types;
