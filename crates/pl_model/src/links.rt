use crate::reservations::Point;
use pl_lists::Copied;
use std::alloc::{AllocError, Global};

/// A temporal link: some activity of `kind` has its point `theirs` from `low` to `high` after the point `mine`.
#[derive(Drop)]
pub struct Link {
    pub mine: Point,
    pub kind: u32,
    pub theirs: Point,
    pub low: i64,
    pub high: i64,
}

impl Copied for Link {
    fn copy(&self, _alloc: Global) -> Result<Link, AllocError> {
        Ok(Link {
            mine: self.mine,
            kind: self.kind,
            theirs: self.theirs,
            low: self.low,
            high: self.high,
        })
    }
}
