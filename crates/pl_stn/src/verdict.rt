use pl_lists::{Copied, Items};
use std::alloc::{AllocError, Global};

/// The time of each point, or the numbers of the edges of a negative cycle in the order of the walk.
#[derive(Drop)]
pub enum Verdict {
    Times(Items<i64>),
    Cycle(Items<u32>),
}

impl Copied for Verdict {
    fn copy(&self, alloc: Global) -> Result<Verdict, AllocError> {
        match self {
            Verdict::Times(times) => Ok(Verdict::Times(times.copy(alloc)?)),
            Verdict::Cycle(edges) => Ok(Verdict::Cycle(edges.copy(alloc)?)),
        }
    }
}
