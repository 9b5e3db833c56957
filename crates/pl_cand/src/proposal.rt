use pl_conflict::Conflict;
use pl_plan::RepairMove;

/// A conflict, and a legal candidate of it.
#[derive(Clone, Copy, Debug, PartialEq, Eq)]
pub struct Proposal {
    pub conflict: Conflict,
    pub mv: RepairMove,
}
