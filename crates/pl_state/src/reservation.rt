use pl_lists::Copied;
use std::alloc::{AllocError, Global};

/// The state that an activity's reservation sets at a moment.
#[derive(Clone, Copy, PartialEq, Eq)]
pub struct Setting {
    pub at: u32,
    pub id: u32,
    pub index: u32,
    pub state: u32,
}

/// The state that an activity's reservation needs from `from` up to but not at `to`.
#[derive(Clone, Copy, PartialEq, Eq)]
pub struct Must {
    pub from: u32,
    pub to: u32,
    pub id: u32,
    pub index: u32,
    pub state: u32,
}

// A must where its start stands.
#[derive(Clone, Copy)]
pub(crate) struct Started {
    pub(crate) must: Must,
}

impl Copied for Setting {
    fn copy(&self, _alloc: Global) -> Result<Setting, AllocError> {
        Ok(*self)
    }
}

impl Copied for Must {
    fn copy(&self, _alloc: Global) -> Result<Must, AllocError> {
        Ok(*self)
    }
}
