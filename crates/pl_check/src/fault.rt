use pl_lists::{Copied, Items};
use pl_model::Name;
use std::alloc::{AllocError, AllocFailed, Global};
use thiserror::Error;

/// What there are too many of, or what lies out of its range.
#[derive(Clone, Copy, Debug, PartialEq, Eq)]
pub enum What {
    Timelines,
    States,
    Kinds,
    Params,
    Reservations,
    Links,
    Alternatives,
    Slots,
    Orders,
    Nodes,
    Horizon,
    Lead,
    Capacity,
    Level,
    Param,
    Link,
    Order,
    Literal,
    Duration,
}

/// Why a tree is no model.
#[derive(Debug, Drop, Error)]
pub enum ModelFault {
    #[error("a name stands twice")]
    Twice(Name),
    #[error("too many of a kind of thing")]
    TooMany(What),
    #[error("unknown name")]
    Unknown(Name),
    #[error("out of range")]
    Range(What),
    /// A kind, and a parameter of it that depends on itself.
    #[error("a parameter depends on itself")]
    Circular(Name, Name),
    /// A kind that contains itself.
    #[error("a kind contains itself")]
    Recursive(Name),
    /// A kind, an alternative of it, and a negative cycle of the alternative's network.
    #[error("an alternative has no schedule")]
    NoSchedule(Name, u32, Items<u32>),
    #[error("out of memory")]
    Memory,
}

impl Copied for ModelFault {
    fn copy(&self, alloc: Global) -> Result<ModelFault, AllocError> {
        match self {
            ModelFault::Twice(name) => Ok(ModelFault::Twice(name.copy(alloc)?)),
            ModelFault::TooMany(what) => Ok(ModelFault::TooMany(*what)),
            ModelFault::Unknown(name) => Ok(ModelFault::Unknown(name.copy(alloc)?)),
            ModelFault::Range(what) => Ok(ModelFault::Range(*what)),
            ModelFault::Circular(kind, param) => {
                let param = param.copy(alloc)?;
                Ok(ModelFault::Circular(kind.copy(alloc)?, param))
            }
            ModelFault::Recursive(kind) => Ok(ModelFault::Recursive(kind.copy(alloc)?)),
            ModelFault::NoSchedule(kind, alternative, cycle) => {
                let cycle = cycle.copy(alloc)?;
                Ok(ModelFault::NoSchedule(kind.copy(alloc)?, *alternative, cycle))
            }
            ModelFault::Memory => Ok(ModelFault::Memory),
        }
    }
}

impl From<AllocError> for ModelFault {
    ghost use Rattle.std.specs.Prelude.{◌≡◌};
    ghost use Rattle.pl_check.specs.declared.fault.ModelFault.TheVariants.{Memory};

    ghost from_gives = { λ _ e. e ≡ Memory };

    fn from(_e: AllocError) -> ModelFault {
        ModelFault::Memory
    }
}

impl<T: Drop> From<AllocFailed<T>> for ModelFault {
    ghost use Rattle.std.specs.Prelude.{◌≡◌};
    ghost use Rattle.pl_check.specs.declared.fault.ModelFault.TheVariants.{Memory};

    ghost from_gives = { λ _ e. e ≡ Memory };

    fn from(_e: AllocFailed<T>) -> ModelFault {
        ModelFault::Memory
    }
}
