use pl_cand::Proposal;
use pl_entry::Reason;

/// What one turn of repair came to.
#[derive(Clone, Copy, PartialEq, Eq)]
pub enum Repaired {
    /// A repair was made, the one that was proposed.
    Fixed(Proposal),
    /// Repair rests, for this reason.
    Rested(Reason),
}
