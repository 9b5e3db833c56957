use pl_moves::Trial;
use pl_plan::RepairMove;

/// The move that is chosen.
#[derive(Drop)]
pub(crate) enum Picked {
    /// The move was tried last, and stays made. What it changed and how that is undone is told, unless it drops a goal.
    Made(RepairMove, Option<Trial>),
    /// The move is not made.
    Found(RepairMove),
}
