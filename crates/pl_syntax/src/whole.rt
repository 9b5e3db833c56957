use crate::kinds::AstKind;
use crate::timelines::AstTimeline;
use pl_lists::{Copied, Items};
use std::alloc::{AllocError, Global};

/// What a model is made of, behind its horizon and lead.
#[derive(Drop)]
pub enum Item {
    Timeline(AstTimeline),
    Kind(AstKind),
}

impl Copied for Item {
    fn copy(&self, alloc: Global) -> Result<Item, AllocError> {
        match self {
            Item::Timeline(timeline) => Ok(Item::Timeline(timeline.copy(alloc)?)),
            Item::Kind(kind) => Ok(Item::Kind(kind.copy(alloc)?)),
        }
    }
}

/// A model as it is written, its names unresolved. Every list is in the order of the text.
#[derive(Drop)]
pub struct Ast {
    pub horizon: i64,
    pub lead: i64,
    pub items: Items<Item>,
}

impl Copied for Ast {
    fn copy(&self, alloc: Global) -> Result<Ast, AllocError> {
        Ok(Ast {
            horizon: self.horizon,
            lead: self.lead,
            items: self.items.copy(alloc)?,
        })
    }
}
