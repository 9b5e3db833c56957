use pl_lists::Copied;
use pl_model::{Name, Point};
use std::alloc::{AllocError, Global};

/// Some activity of the kind has its point from `low` to `high` after the own point.
#[derive(Drop)]
pub struct AstLink {
    pub mine: Point,
    pub kind: Name,
    pub theirs: Point,
    pub low: i64,
    pub high: i64,
}

impl Copied for AstLink {
    fn copy(&self, alloc: Global) -> Result<AstLink, AllocError> {
        Ok(AstLink {
            mine: self.mine,
            kind: self.kind.copy(alloc)?,
            theirs: self.theirs,
            low: self.low,
            high: self.high,
        })
    }
}
