use pl_plan::RepairMove;

/// A move that was made, and what it gained.
#[derive(Clone, Copy)]
pub(crate) struct Choice {
    pub mv: RepairMove,
    pub gain: i128,
}
