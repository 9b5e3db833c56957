use crate::event::Event;
use crate::reply::Reply;
use pl_lists::Copied;
use std::alloc::{AllocError, Global};

/// One entry of the log: an event and its reply.
#[derive(Drop)]
pub struct Entry {
    pub event: Event,
    pub reply: Reply,
}

impl Copied for Entry {
    fn copy(&self, alloc: Global) -> Result<Entry, AllocError> {
        Ok(Entry {
            event: self.event.copy(alloc)?,
            reply: self.reply.copy(alloc)?,
        })
    }
}
