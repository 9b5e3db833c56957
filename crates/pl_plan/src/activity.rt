use pl_lists::{Copied, Items};
use std::alloc::{AllocError, Global};

/// An activity of the plan. `parent` is its parent's id and its slot there, `goal` the number of the goal that it
/// carries, `detail` the chosen alternative, and `set` has one place for each parameter of the kind. `measured` is the
/// moment at which it ends, where that was measured.
#[derive(Drop)]
pub struct Activity {
    pub id: u32,
    pub kind: u32,
    pub start: u32,
    pub parent: Option<(u32, u32)>,
    pub goal: Option<u32>,
    pub detail: Option<u32>,
    pub set: Items<Option<i64>>,
    pub measured: Option<u32>,
}

impl Copied for Activity {
    fn copy(&self, alloc: Global) -> Result<Activity, AllocError> {
        Ok(Activity {
            id: self.id,
            kind: self.kind,
            start: self.start,
            parent: self.parent,
            goal: self.goal,
            detail: self.detail,
            set: self.set.copy(alloc)?,
            measured: self.measured,
        })
    }
}
