use crate::Name;
use pl_lists::{Copied, Items};
use std::alloc::{AllocError, Global};

/// A timeline: a capacity that activities use while they run, a level that they raise and lower for good, or a state.
/// `any` allows every step between states; else `steps` has the allowed ones.
#[derive(Drop)]
pub enum Timeline {
    Capacity {
        name: Name,
        most: i64,
    },
    Level {
        name: Name,
        least: i64,
        most: i64,
        start: i64,
    },
    States {
        name: Name,
        states: Items<Name>,
        start: u32,
        any: bool,
        steps: Items<(u32, u32)>,
    },
}

impl Copied for Timeline {
    fn copy(&self, alloc: Global) -> Result<Timeline, AllocError> {
        match self {
            Timeline::Capacity { name, most } => Ok(Timeline::Capacity {
                name: name.copy(alloc)?,
                most: *most,
            }),
            Timeline::Level {
                name,
                least,
                most,
                start,
            } => Ok(Timeline::Level {
                name: name.copy(alloc)?,
                least: *least,
                most: *most,
                start: *start,
            }),
            Timeline::States {
                name,
                states,
                start,
                any,
                steps,
            } => Ok(Timeline::States {
                name: name.copy(alloc)?,
                states: states.copy(alloc)?,
                start: *start,
                any: *any,
                steps: steps.copy(alloc)?,
            }),
        }
    }
}
