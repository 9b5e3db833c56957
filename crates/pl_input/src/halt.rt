use std::alloc::{AllocError, AllocFailed};

/// Why a run stopped before its end: a read or a write failed, a line or the input is too long, the log is full, or
/// memory is wanting.
#[derive(Clone, Copy, PartialEq, Eq)]
pub enum Halt {
    Read,
    Write,
    Limit,
    Full,
    Memory,
}

impl From<AllocError> for Halt {
    ghost use Rattle.std.specs.Prelude.{◌≡◌};
    ghost use Rattle.pl_input.specs.declared.halt.Halt.TheVariants.{Memory};

    ghost from_gives = { λ _ e. e ≡ Memory };

    fn from(_: AllocError) -> Halt {
        Halt::Memory
    }
}

impl From<pl_io::Failed> for Halt {
    ghost use Rattle.std.specs.Prelude.{◌≡◌};
    ghost use Rattle.pl_input.specs.declared.halt.Halt.TheVariants.{Write};

    ghost from_gives = { λ _ e. e ≡ Write };

    fn from(_: pl_io::Failed) -> Halt {
        Halt::Write
    }
}

impl<T: Drop> From<AllocFailed<T>> for Halt {
    ghost use Rattle.std.specs.Prelude.{◌≡◌};
    ghost use Rattle.pl_input.specs.declared.halt.Halt.TheVariants.{Memory};

    ghost from_gives = { λ _ e. e ≡ Memory };

    fn from(_: AllocFailed<T>) -> Halt {
        Halt::Memory
    }
}
