//! Plans that a search comes to, each by a path of repairs.

use crate::look::Look;
use crate::price::price_of;
use pl_cand::Proposal;
use std::alloc::{AllocError, Global};

/// A plan that the search came to: by which repairs, and what was seen of it.
#[derive(Drop)]
pub(crate) struct Node {
    pub(crate) path: Vec<Proposal>,
    pub(crate) look: Look,
}

/// One more repair of the plan at a place of a layer, and what was seen of the plan that it leads to.
#[derive(Clone, Copy)]
pub(crate) struct Step {
    pub(crate) from: usize,
    pub(crate) repair: Proposal,
    pub(crate) look: Look,
}

impl Step {
    /// The same repair, which leads to a plan of this mark.
    pub(crate) fn with_mark(self, mark: u64) -> Step {
        let before = self.look;
        Step {
            look: Look { mark, ..before },
            ..self
        }
    }
}

impl Node {
    /// The plan that a search starts from.
    pub(crate) fn start(alloc: Global, look: Look) -> Node {
        Node {
            path: Vec::new(alloc),
            look,
        }
    }

    pub(crate) fn copy(&self, alloc: Global) -> Result<Node, AllocError> {
        Ok(Node {
            path: Vec::from_slice(alloc, self.path.as_slice())?,
            look: self.look,
        })
    }

    /// Its price, with or without the lengths of conflicts.
    pub(crate) fn price(&self, lengths: bool) -> u64 {
        price_of(&self.look, self.path.len(), lengths)
    }

    /// The plan after one more repair.
    pub(crate) fn behind(&self, alloc: Global, step: &Step) -> Result<Node, AllocError> {
        let mut path = Vec::from_slice(alloc, self.path.as_slice())?;
        path.push(step.repair)?;
        Ok(Node {
            path,
            look: step.look,
        })
    }
}
