use pl_lists::Copied;
use std::alloc::{AllocError, Global};

/// A link of an activity that has no partner, by its index among the links of the kind; or, where
/// `slots` is set, an order of the chosen alternative that is not met, by its index among the
/// orders of the alternative.
#[derive(Clone, Copy, PartialEq, Eq, PartialOrd, Ord)]
pub struct Broken {
    pub id: u32,
    pub index: u32,
    pub slots: bool,
}

impl Copied for Broken {
    fn copy(&self, _alloc: Global) -> Result<Broken, AllocError> {
        Ok(*self)
    }
}
