use pl_plan::RepairMove;

/// The best move so far, and a number of conflicts: a move is better if it leaves fewer.
#[derive(Clone, Copy)]
pub(crate) struct Best {
    pub(crate) mv: RepairMove,
    pub(crate) left: usize,
}
