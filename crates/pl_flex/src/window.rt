use pl_lists::Copied;
use std::alloc::{AllocError, Global};

/// The least and the greatest start of an activity when the others move with it, and the point of its start in the network.
#[derive(Clone, Copy, PartialEq, Eq)]
pub struct Window {
    pub id: u32,
    pub point: u32,
    pub least: u32,
    pub greatest: u32,
}

impl Copied for Window {
    fn copy(&self, _alloc: Global) -> Result<Window, AllocError> {
        Ok(*self)
    }
}
