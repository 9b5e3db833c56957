use pl_marks::Author;

/// Which planners have looked at a plan.
#[derive(Clone, Copy)]
pub(crate) enum Planners {
    Nobody,
    One(Author),
    Several,
}

impl Planners {
    /// The same with one planner more.
    pub(crate) fn with(self, by: Author) -> Planners {
        match self {
            Planners::Nobody => Planners::One(by),
            Planners::One(other) => {
                if other == by {
                    Planners::One(by)
                } else {
                    Planners::Several
                }
            }
            Planners::Several => Planners::Several,
        }
    }

    pub(crate) fn is_one(self) -> bool {
        match self {
            Planners::Nobody | Planners::Several => false,
            Planners::One(_) => true,
        }
    }
}
