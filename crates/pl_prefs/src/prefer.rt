use pl_lists::Copied;
use std::alloc::{AllocError, Global};

/// What is preferred of a plan, with its weight at the end. Kinds, parameters and timelines are numbers.
#[derive(Clone, Copy, Debug, PartialEq, Eq)]
pub enum Prefer {
    /// That activities of a kind start early.
    Early(u32, i64),
    /// That activities of a kind start late.
    Late(u32, i64),
    /// That a parameter of activities of a kind has a large value.
    Value(u32, u8, i64),
    /// That a level is high at the last moment before the horizon.
    Level(u32, i64),
}

impl Copied for Prefer {
    fn copy(&self, _alloc: Global) -> Result<Prefer, AllocError> {
        Ok(*self)
    }
}
