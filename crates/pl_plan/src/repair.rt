use pl_lists::Copied;
use std::alloc::{AllocError, Global};

/// A change of the plan that repair may make.
#[derive(Clone, Copy, Debug, PartialEq, Eq)]
pub enum RepairMove {
    /// A new root of the kind, which stands for the goal if one is named, with its presets.
    Add {
        kind: u32,
        start: u32,
        goal: Option<u32>,
    },
    /// The root goes, and all that it contains.
    Delete {
        id: u32,
    },
    /// The activity starts there, and all that it contains moves as far.
    Shift {
        id: u32,
        start: u32,
    },
    /// The alternative is chosen: an activity comes for each of its slots, at its offset.
    Detail {
        id: u32,
        alternative: u32,
    },
    /// All that the activity contains goes, and no alternative is chosen.
    Abstract {
        id: u32,
    },
    /// The free parameter has this value.
    Assign {
        id: u32,
        param: u8,
        value: i64,
    },
    /// The goal is given up.
    Drop {
        goal: u32,
    },
}

impl Copied for RepairMove {
    fn copy(&self, _alloc: Global) -> Result<RepairMove, AllocError> {
        Ok(*self)
    }
}
