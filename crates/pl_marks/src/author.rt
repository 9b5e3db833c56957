ghost use Rattle.std.specs.Prelude.{◌≡◌, ◌<◌};
ghost use Rattle.pl_marks.specs.Authors.{IsAuthor, slot_of, number_of};

use pl_lists::Copied;
use std::alloc::{AllocError, Global};

/// Who makes entries: the one who hands messages in, the one who commits, sends commands and closes rounds, or one of the planners, who are
/// numbered from 1.
#[derive(Clone, Copy, Debug, PartialEq, Eq)]
pub enum Author {
    Feeder,
    Executive,
    Planner(u8),
}

impl Author {
    /// The place of this author among all that there can be.
    pub(crate) fn slot(self) -> usize
        requires { IsAuthor self }
        ensures slot { result ≡ slot_of self }
        ensures few { result < 10 }
    {
        match self {
            Author::Feeder => 0,
            Author::Executive => 1,
            Author::Planner(number) => usize::from(number) + 1,
        }
    }

    /// What a gate is told of who acts: a planner's number, and 0 for all others.
    pub fn worker(self) -> u8
        ensures { result ≡ number_of self }
    {
        match self {
            Author::Feeder | Author::Executive => 0,
            Author::Planner(number) => number,
        }
    }
}

impl Copied for Author {
    fn copy(&self, _alloc: Global) -> Result<Author, AllocError> {
        Ok(*self)
    }
}
