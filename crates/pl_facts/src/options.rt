use pl_lists::Copied;
use std::alloc::{AllocError, Global};

/// The bounds of a run: repair turns of a round, live activities, accepted goals, log entries.
#[derive(Clone, Copy, Debug, PartialEq, Eq)]
pub struct Options {
    pub turns: u32,
    pub live: u32,
    pub goals: u32,
    pub entries: u32,
}

impl Copied for Options {
    fn copy(&self, _alloc: Global) -> Result<Options, AllocError> {
        Ok(*self)
    }
}
