use crate::reservation::{Must, Setting};

// A change of a state timeline.
#[derive(Clone, Copy)]
pub(crate) enum Change {
    Put(Setting),
    Take(Setting),
    Need(Must),
    Free(Must),
    Rebase(u32),
    Advance(u32),
}
