use crate::author::Author;
use pl_lists::Copied;
use std::alloc::{AllocError, Global};

/// That the entry with this number was made by this author, as the author's own first, second, and so on.
#[derive(Clone, Copy, Debug, PartialEq, Eq)]
pub struct Mark {
    pub entry: u32,
    pub author: Author,
    pub count: u32,
}

impl Copied for Mark {
    fn copy(&self, _alloc: Global) -> Result<Mark, AllocError> {
        Ok(*self)
    }
}
