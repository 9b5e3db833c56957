use pl_lists::Copied;
use std::alloc::{AllocError, Global};

/// An amount in use from `from` up to but not at `to`.
#[derive(Clone, Copy, PartialEq, Eq)]
pub struct Use {
    pub from: u32,
    pub to: u32,
    pub amount: i64,
}

impl Copied for Use {
    fn copy(&self, _alloc: Global) -> Result<Use, AllocError> {
        Ok(*self)
    }
}
