/// What an activity does to a timeline that has a conflict, so that shifting it may help.
#[derive(Clone, Copy, PartialEq, Eq)]
pub(crate) enum Role {
    /// It takes an amount above 0 at a moment from the first one on and before the second.
    Uses(u32, u32),
    /// It changes the level in this way before this moment.
    ChangesBelow(u32, Way),
}

/// In which way an activity changes a level.
#[derive(Clone, Copy, PartialEq, Eq)]
pub(crate) enum Way {
    Down,
    Up,
}
