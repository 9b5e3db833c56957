use pl_lists::Copied;
use std::alloc::{AllocError, Global};

/// A level, by its number, is outside its limits from a moment up to but not at another: above its most if `high`, else below its least.
#[derive(Clone, Copy, PartialEq, Eq)]
pub struct Outside {
    pub level: u32,
    pub high: bool,
    pub from: u32,
    pub to: u32,
}

impl Copied for Outside {
    fn copy(&self, _alloc: Global) -> Result<Outside, AllocError> {
        Ok(*self)
    }
}
