//! The lines of a journal: rendered from entries, written to a sink, and parsed back.
#![tactic(auto)]

mod parsing;
mod rendering;
mod writing;

pub use parsing::{EntryFault, has_line, read_entry, shared_types};
pub use rendering::{
    kind_name, laws_of_length, laws_of_telling, push_conflict, push_count, push_labelled,
    push_reply, push_word, render, text_laws,
};
pub use writing::write_entries;
