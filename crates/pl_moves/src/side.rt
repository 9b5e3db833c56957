/// A start that no repair may give lies on one of two sides of those that a repair may give.
#[derive(Clone, Copy, PartialEq, Eq)]
pub(crate) enum Side {
    BelowFloor,
    PastHorizon,
}
