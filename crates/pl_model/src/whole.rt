use crate::kinds::Kind;
use crate::timelines::Timeline;
use pl_lists::{Copied, Items};
use std::alloc::{AllocError, Global};

/// A whole model: the horizon and the lead in moments, and the timelines and kinds by number.
#[derive(Drop)]
pub struct Model {
    pub horizon: u32,
    pub lead: u32,
    pub timelines: Items<Timeline>,
    pub kinds: Items<Kind>,
}

impl Copied for Model {
    fn copy(&self, alloc: Global) -> Result<Model, AllocError> {
        Ok(Model {
            horizon: self.horizon,
            lead: self.lead,
            timelines: self.timelines.copy(alloc)?,
            kinds: self.kinds.copy(alloc)?,
        })
    }
}
