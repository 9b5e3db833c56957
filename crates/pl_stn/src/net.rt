use pl_lists::{Copied, Items};
use std::alloc::{AllocError, Global};

/// The time of the point `to` is at most `most` after the time of the point `from`.
#[derive(Clone, Copy, PartialEq, Eq)]
pub struct Edge {
    pub from: u32,
    pub to: u32,
    pub most: i64,
}

impl Copied for Edge {
    fn copy(&self, _alloc: Global) -> Result<Edge, AllocError> {
        Ok(*self)
    }
}

/// A simple temporal network over the points 0 to `points - 1`. Point 0 is the origin, whose time is 0.
#[derive(Drop)]
pub struct Net {
    pub points: u32,
    pub edges: Items<Edge>,
}

impl Copied for Net {
    fn copy(&self, alloc: Global) -> Result<Net, AllocError> {
        Ok(Net {
            points: self.points,
            edges: self.edges.copy(alloc)?,
        })
    }
}
