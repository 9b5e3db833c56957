use std::alloc::AllocError;
use thiserror::Error;

/// Why a text is no model text. A place counts bytes from 0.
#[derive(Clone, Copy, Debug, PartialEq, Eq, Error)]
pub enum SyntaxFault {
    /// More than 1,048,576 bytes.
    #[error("too long")]
    TooLong,
    #[error("bad byte at {0}")]
    BadByte(u32),
    #[error("bad number at {0}")]
    BadNumber(u32),
    #[error("bad name at {0}")]
    BadName(u32),
    /// The token with which an expression has more than 32 levels, or its brackets nest more than 32 deep.
    #[error("too deep at {0}")]
    TooDeep(u32),
    /// The first token with which no model text goes on, or the length of the text.
    #[error("unexpected at {0}")]
    Unexpected(u32),
    #[error("out of memory")]
    Memory,
}

/// What stops the reader, with the count of the tokens that are left.
#[derive(Clone, Copy, PartialEq, Eq)]
pub enum Stopped {
    TooDeep(usize),
    Unexpected(usize),
    Memory,
}

impl From<AllocError> for Stopped {
    ghost use Rattle.std.specs.Prelude.{◌≡◌};
    ghost use Rattle.pl_syntax.specs.declared.fault.Stopped.TheVariants.{Memory};

    ghost from_gives = { λ _ e. e ≡ Memory };

    fn from(_: AllocError) -> Stopped {
        Stopped::Memory
    }
}
