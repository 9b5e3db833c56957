use pl_lists::Copied;
use std::alloc::{AllocError, Global};

/// An activity with its end, of which there is none where the activity is not firm. `parent` is its
/// parent's id and its slot there, `detail` the chosen alternative.
#[derive(Clone, Copy, PartialEq, Eq)]
pub struct Placed {
    pub id: u32,
    pub kind: u32,
    pub start: u32,
    pub end: Option<u32>,
    pub parent: Option<(u32, u32)>,
    pub detail: Option<u32>,
}

impl Copied for Placed {
    fn copy(&self, _alloc: Global) -> Result<Placed, AllocError> {
        Ok(*self)
    }
}
