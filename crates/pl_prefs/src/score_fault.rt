use thiserror::Error;

/// Why a plan is not bettered.
#[derive(Clone, Copy, Debug, PartialEq, Eq, Error)]
pub enum ScoreFault {
    /// Conflicts stand, so many; where there are more than the type holds, the largest that it holds.
    #[error("conflicts {0}")]
    Conflicts(u32),
    #[error("out of memory")]
    Memory,
}
