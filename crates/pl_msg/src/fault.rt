use std::alloc::{AllocError, AllocFailed};
use thiserror::Error;

/// Why a line is no message, no preference or no rate.
#[derive(Clone, Copy, Debug, PartialEq, Eq, Error)]
pub enum ParseFault {
    /// None of the forms that such a line may have, or a preset's name stands twice.
    #[error("bad line")]
    BadLine,
    /// A name that names nothing of the sort that is asked for where it stands.
    #[error("unknown name")]
    UnknownName,
    /// A number outside its limits, or a name where the value of a level is told.
    #[error("out of range")]
    OutOfRange,
    #[error("out of memory")]
    Memory,
}

impl From<AllocError> for ParseFault {
    ghost use Rattle.std.specs.Prelude.{◌≡◌};
    ghost use Rattle.pl_msg.specs.declared.fault.ParseFault.TheVariants.{Memory};

    ghost from_gives = { λ _ e. e ≡ Memory };

    fn from(_: AllocError) -> ParseFault {
        ParseFault::Memory
    }
}

impl<T: Drop> From<AllocFailed<T>> for ParseFault {
    ghost use Rattle.std.specs.Prelude.{◌≡◌};
    ghost use Rattle.pl_msg.specs.declared.fault.ParseFault.TheVariants.{Memory};

    ghost from_gives = { λ _ e. e ≡ Memory };

    fn from(_: AllocFailed<T>) -> ParseFault {
        ParseFault::Memory
    }
}
