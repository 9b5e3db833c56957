use pl_facts::Goal;
use pl_plan::RepairMove;

/// A change that an event makes of the plan state.
#[derive(Drop)]
pub(crate) enum Change {
    /// A goal is accepted.
    Accept(Goal),
    /// The value of a level, or the state of a state timeline, is told.
    Tell(u32, i64),
    /// The present moves on.
    Tick(u32),
    /// What starts before a moment is committed.
    Commit(u32),
    /// A repair is made.
    Repair(RepairMove),
    /// The activity of an id is known to end at a moment.
    Measure(u32, u32),
    /// What starts after the present is no longer committed.
    Withdraw,
}
