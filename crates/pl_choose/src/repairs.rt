use pl_conflict::Conflict;
use pl_plan::RepairMove;

/// A conflict with its legal candidates.
#[derive(Drop)]
pub(crate) struct Repairs {
    pub conflict: Conflict,
    pub moves: Vec<RepairMove>,
}
