use pl_lists::Copied;
use std::alloc::{AllocError, Global};

/// How a level changes with each moment by itself, or for each activity of a kind that runs. Kind and level are numbers.
#[derive(Clone, Copy, PartialEq, Eq)]
pub struct Rate {
    pub kind: Option<u32>,
    pub level: u32,
    pub change: i64,
}

impl Copied for Rate {
    fn copy(&self, _alloc: Global) -> Result<Rate, AllocError> {
        Ok(*self)
    }
}
