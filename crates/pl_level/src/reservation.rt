use pl_lists::Copied;
use pl_points::Change;
use std::alloc::{AllocError, Global};

/// What is added to a level at a moment and from then on.
#[derive(Clone, Copy, PartialEq, Eq)]
pub struct Effect {
    pub at: u32,
    pub delta: i64,
}

/// What left and came into the spans of a level, those below its least and those above its most.
#[derive(Drop)]
pub struct LevelChange {
    pub low: Change,
    pub high: Change,
}

impl Copied for Effect {
    fn copy(&self, _alloc: Global) -> Result<Effect, AllocError> {
        Ok(*self)
    }
}

impl Copied for LevelChange {
    fn copy(&self, alloc: Global) -> Result<LevelChange, AllocError> {
        let low = self.low.copy(alloc)?;
        let high = self.high.copy(alloc)?;
        Ok(LevelChange { low, high })
    }
}
