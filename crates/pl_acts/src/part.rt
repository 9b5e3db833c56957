use pl_entry::Entry;
use pl_lists::{Copied, Items};
use std::alloc::{AllocError, Global};

/// Entries of a log.
pub type Entries = Items<Entry>;

/// A part of the log, and where the plan stood after it.
#[derive(Drop)]
pub struct Part {
    pub entries: Entries,
    pub closed: bool,
    pub done: bool,
    pub stopped: bool,
}

impl Copied for Part {
    fn copy(&self, alloc: Global) -> Result<Part, AllocError> {
        Ok(Part {
            entries: self.entries.copy(alloc)?,
            closed: self.closed,
            done: self.done,
            stopped: self.stopped,
        })
    }
}
