use pl_lists::{Copied, Items};
use std::alloc::{AllocError, Global};

/// A goal: an activity of `kind` is to start from `earliest` to `latest`. A goal that is no `must` may be dropped.
/// `presets` has one place for each parameter of the kind.
#[derive(Debug, Drop)]
pub struct Goal {
    pub number: u32,
    pub kind: u32,
    pub earliest: u32,
    pub latest: u32,
    pub must: bool,
    pub presets: Items<Option<i64>>,
    pub dropped: bool,
}

impl Copied for Goal {
    fn copy(&self, alloc: Global) -> Result<Goal, AllocError> {
        Ok(Goal {
            number: self.number,
            kind: self.kind,
            earliest: self.earliest,
            latest: self.latest,
            must: self.must,
            presets: self.presets.copy(alloc)?,
            dropped: self.dropped,
        })
    }
}
