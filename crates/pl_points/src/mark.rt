/// A moment to which a walk has come, and the sum of all deltas up to it.
#[derive(Clone, Copy, PartialEq, Eq)]
pub struct Mark {
    pub at: u32,
    pub sum: i64,
}
