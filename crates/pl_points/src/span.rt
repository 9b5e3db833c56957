use pl_lists::{Copied, Items};
use std::alloc::{AllocError, Global};

/// The moments from `from` up to but not at `to`.
#[derive(Clone, Copy, PartialEq, Eq)]
pub struct Span {
    pub from: u32,
    pub to: u32,
}

/// What left a list of spans, and what came into it, each by rising moments.
#[derive(Drop)]
pub struct Change {
    pub went: Items<Span>,
    pub came: Items<Span>,
}

impl Copied for Span {
    fn copy(&self, _alloc: Global) -> Result<Span, AllocError> {
        Ok(*self)
    }
}

impl Copied for Change {
    fn copy(&self, alloc: Global) -> Result<Change, AllocError> {
        let went = self.went.copy(alloc)?;
        let came = self.came.copy(alloc)?;
        Ok(Change { went, came })
    }
}
