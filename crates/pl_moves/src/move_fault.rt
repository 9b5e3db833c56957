use pl_semantics::Refusal;
use std::alloc::AllocError;
use thiserror::Error;

/// Why a move was not made.
#[derive(Clone, Copy, Debug, PartialEq, Eq, Error)]
pub enum MoveFault {
    #[error("the move is refused")]
    Refused(Refusal),
    #[error("memory is wanting")]
    Memory,
}

impl From<AllocError> for MoveFault {
    ghost use Rattle.std.specs.Prelude.{◌≡◌};
    ghost use Rattle.pl_moves.specs.declared.move_fault.MoveFault.TheVariants.{Memory};

    ghost from_gives = { λ _ fault. fault ≡ Memory };

    fn from(_error: AllocError) -> MoveFault {
        MoveFault::Memory
    }
}
