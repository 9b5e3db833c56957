//! The journal's text of every entry: a line of words, with the entry's number in front.

mod commands;
mod conflicts;
mod entries;
mod events;
mod laws;
mod moves;
mod names;
mod pushing;
mod replies;

pub use conflicts::push_conflict;
pub use entries::render;
pub use laws::{laws_of_length, laws_of_telling, text_laws};
pub use names::kind_name;
pub use pushing::{push_count, push_labelled, push_word};
pub use replies::push_reply;
