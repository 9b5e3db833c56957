use std::alloc::{AllocError, AllocFailed};
use thiserror::Error;

/// Why an event was not logged.
#[derive(Clone, Copy, Debug, PartialEq, Eq, Error)]
pub enum Stop {
    /// The event is not enabled.
    #[error("not now")]
    NotNow,
    /// The log has as many entries as its options allow.
    #[error("log full")]
    LogFull,
    /// Memory was wanting in an earlier event of this machine.
    #[error("spoiled")]
    Spoiled,
    #[error("out of memory")]
    Memory,
}

impl From<AllocError> for Stop {
    ghost use Rattle.std.specs.Prelude.{◌≡◌};
    ghost use Rattle.pl_machine.specs.declared.stop.Stop.TheVariants.{Memory};

    ghost from_gives = { λ _ e. e ≡ Memory };

    fn from(_: AllocError) -> Stop {
        Stop::Memory
    }
}

impl<T: Drop> From<AllocFailed<T>> for Stop {
    ghost use Rattle.std.specs.Prelude.{◌≡◌};
    ghost use Rattle.pl_machine.specs.declared.stop.Stop.TheVariants.{Memory};

    ghost from_gives = { λ _ e. e ≡ Memory };

    fn from(_: AllocFailed<T>) -> Stop {
        Stop::Memory
    }
}
