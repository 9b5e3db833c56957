//! A copy of the timelines.
use crate::timelines::line::Line;
use crate::timelines::lines::Lines;
use pl_lists::Copied;
use std::alloc::{AllocError, Global};

impl Copied for Line {
    fn copy(&self, alloc: Global) -> Result<Line, AllocError> {
        match self {
            Line::Capacity(capacity) => Ok(Line::Capacity(capacity.copy(alloc)?)),
            Line::Level(level) => Ok(Line::Level(level.copy(alloc)?)),
            Line::States(states) => Ok(Line::States(states.copy(alloc)?)),
        }
    }
}

impl Copied for Lines {
    fn copy(&self, alloc: Global) -> Result<Lines, AllocError> {
        let mut all = Vec::new(alloc);
        for line in self.all.as_slice() {
            all.push(line.copy(alloc)?)?;
        }
        Ok(Lines { alloc, all })
    }
}
