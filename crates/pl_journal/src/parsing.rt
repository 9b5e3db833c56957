//! The lines of a journal read back.

mod commands;
mod conflicts;
mod counts;
mod entries;
mod fault;
mod inputs;
mod moves;
mod names;
mod openings;
mod reading;
mod replies;
mod sharing;
mod words;

pub use fault::EntryFault;
pub use reading::{has_line, read_entry};
pub use sharing::shared_types;
