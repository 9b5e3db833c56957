//! Why the feeder goes no further.
use pl_input::Halt;
use std::alloc::AllocError;

/// A read or a write failed, a line or the input is too long, the log is full, a worker stopped the plan, or memory is wanting.
#[derive(Clone, Copy, PartialEq, Eq)]
pub enum Cut {
    Read,
    Write,
    Limit,
    Full,
    Stopped,
    Memory,
}

impl From<AllocError> for Cut {
    ghost use Rattle.std.specs.Prelude.{◌≡◌};
    ghost use Rattle.pl_pair.specs.declared.cut.Cut.TheVariants.{Memory};

    ghost from_gives = { λ _ e. e ≡ Memory };

    fn from(_: AllocError) -> Cut {
        Cut::Memory
    }
}

impl From<Halt> for Cut {
    ghost use Rattle.std.specs.Prelude.{◌≡◌};
    ghost use Rattle.pl_pair.specs.Cuts.{cut_of};

    ghost from_gives = { λ halt e. e ≡ cut_of halt };

    fn from(halt: Halt) -> Cut {
        match halt {
            Halt::Read => Cut::Read,
            Halt::Write => Cut::Write,
            Halt::Limit => Cut::Limit,
            Halt::Full => Cut::Full,
            Halt::Memory => Cut::Memory,
        }
    }
}
