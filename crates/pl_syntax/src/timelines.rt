use pl_lists::{Copied, Items};
use pl_model::Name;
use std::alloc::{AllocError, Global};

/// A timeline as it is written. Where `any` is set every step is allowed, and `steps` is empty.
#[derive(Drop)]
pub enum AstTimeline {
    Capacity {
        name: Name,
        most: i64,
    },
    Level {
        name: Name,
        least: i64,
        most: i64,
        start: i64,
    },
    States {
        name: Name,
        states: Items<Name>,
        start: Name,
        any: bool,
        steps: Items<(Name, Name)>,
    },
}

impl Copied for AstTimeline {
    fn copy(&self, alloc: Global) -> Result<AstTimeline, AllocError> {
        match self {
            AstTimeline::Capacity { name, most } => Ok(AstTimeline::Capacity {
                name: name.copy(alloc)?,
                most: *most,
            }),
            AstTimeline::Level {
                name,
                least,
                most,
                start,
            } => Ok(AstTimeline::Level {
                name: name.copy(alloc)?,
                least: *least,
                most: *most,
                start: *start,
            }),
            AstTimeline::States {
                name,
                states,
                start,
                any,
                steps,
            } => Ok(AstTimeline::States {
                name: name.copy(alloc)?,
                states: states.copy(alloc)?,
                start: start.copy(alloc)?,
                any: *any,
                steps: steps.copy(alloc)?,
            }),
        }
    }
}
