//! The errors of sources, sinks and line readers.
ghost use Rattle.std.specs.Prelude.{◌≡◌};
ghost use Rattle.pl_io.specs.declared.errors.LineFault.TheVariants.{Read, Memory};

use std::alloc::AllocError;
use thiserror::Error;

/// A read or a write failed. Which one, the object's count of faults says.
#[derive(Clone, Copy, Debug, PartialEq, Eq, Error)]
#[error("a read or a write failed")]
pub struct Failed;

/// Why a line reader stopped.
#[derive(Clone, Copy, Debug, PartialEq, Eq, Error)]
pub enum LineFault {
    /// The source failed.
    #[error("a read failed")]
    Read,
    /// The line of this number is longer than the line limit.
    #[error("line {0} is too long")]
    Long(u64),
    /// The line asked for doesn't end within the total limit, and the input goes on behind it.
    #[error("the input is too long")]
    Total,
    /// Memory ran out.
    #[error("out of memory")]
    Memory,
}

impl From<Failed> for LineFault {
    ghost from_gives = { λ _ fault. fault ≡ Read };

    fn from(_failed: Failed) -> LineFault {
        LineFault::Read
    }
}

impl From<AllocError> for LineFault {
    ghost from_gives = { λ _ fault. fault ≡ Memory };

    fn from(_error: AllocError) -> LineFault {
        LineFault::Memory
    }
}
