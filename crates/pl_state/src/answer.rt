use pl_lists::{Copied, Items};
use std::alloc::{AllocError, Global};

/// A span in which the state is another than a must needs. They are ordered by their fields in turn.
#[derive(Clone, Copy, Debug, PartialEq, Eq, PartialOrd, Ord)]
pub struct BrokenMust {
    pub id: u32,
    pub index: u32,
    pub from: u32,
    pub to: u32,
}

/// A set whose step from the state before it is not allowed.
#[derive(Clone, Copy, Debug, PartialEq, Eq)]
pub struct BadSet {
    pub at: u32,
    pub id: u32,
    pub index: u32,
}

/// What left and came into the broken musts and the bad steps of a state timeline.
#[derive(Debug, Drop)]
pub struct StateChange {
    pub musts_went: Items<BrokenMust>,
    pub musts_came: Items<BrokenMust>,
    pub steps_went: Items<BadSet>,
    pub steps_came: Items<BadSet>,
}

impl Copied for BrokenMust {
    fn copy(&self, _alloc: Global) -> Result<BrokenMust, AllocError> {
        Ok(*self)
    }
}

impl Copied for BadSet {
    fn copy(&self, _alloc: Global) -> Result<BadSet, AllocError> {
        Ok(*self)
    }
}

impl Copied for StateChange {
    fn copy(&self, alloc: Global) -> Result<StateChange, AllocError> {
        let musts_went = self.musts_went.copy(alloc)?;
        let musts_came = self.musts_came.copy(alloc)?;
        let steps_went = self.steps_went.copy(alloc)?;
        let steps_came = self.steps_came.copy(alloc)?;
        Ok(StateChange {
            musts_went,
            musts_came,
            steps_went,
            steps_came,
        })
    }
}
