ghost use Rattle.std.specs.Prelude.{◌≡◌, IfOk};
ghost use Rattle.pl_memo.specs.Differences.{no_difference, leaving, Comes};

use crate::rows::{has, with, without};
use crate::same::stands;
use pl_lists::Items;
use pl_plan::Activity;
use std::alloc::{AllocError, Global};

/// How the activities of a plan differ from those of an earlier one. Both lists go by rising id.
#[derive(Drop)]
pub struct Difference {
    /// What the earlier plan has and the plan has not, or has with other fields: as it is in the earlier one.
    pub gone: Items<Activity>,
    /// What the plan has and the earlier one has not, or has with other fields: as it is in the plan.
    pub placed: Items<Activity>,
}

impl Difference {
    /// A plan does not differ from itself.
    pub fn new(alloc: Global) -> Difference
        ensures { result ≡ no_difference }
    {
        Difference {
            gone: Items::new(alloc),
            placed: Items::new(alloc),
        }
    }

    /// The difference once an activity has left the plan.
    pub fn leave(self, a: Activity) -> Result<Difference, AllocError>
        ensures { IfOk result (λ d. d ≡ leaving self a) }
    {
        let Difference { gone, placed } = self;
        if has(placed.as_slice(), a.id) {
            Ok(Difference {
                gone,
                placed: without(placed, a.id),
            })
        } else {
            Ok(Difference {
                gone: with(gone, a)?,
                placed,
            })
        }
    }

    /// The difference once an activity has come into the plan. Where it is just the one that was gone, it is back.
    pub fn come(self, a: Activity) -> Result<Difference, AllocError>
        ensures { IfOk result (Comes self a) }
    {
        let Difference { gone, placed } = self;
        if stands(gone.as_slice(), &a) {
            Ok(Difference {
                gone: without(gone, a.id),
                placed,
            })
        } else {
            Ok(Difference {
                gone,
                placed: with(placed, a)?,
            })
        }
    }
}
