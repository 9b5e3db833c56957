/// What the words ask for.
#[derive(Clone, Copy, PartialEq, Eq)]
pub enum Command {
    /// Plans a mission with a planner and an executive in threads of their own. The repair turns of a round are from 1 to
    /// 1,000, the seed of the planner's chooser is up to 999,999,999,999,999,999.
    Pair { turns: u32, seed: u64 },
    /// Plans a mission with an executive and several planners, 2 to 8, each in a thread of its own. The chooser of each planner is made from the
    /// seed and the planner's number added up.
    Crew { turns: u32, planners: u8, seed: u64 },
    Alone(Task),
}

/// Who repairs a plan, beside an executive: a planner with a chooser of this seed, or several, numbered from 1, each with a chooser of
/// the seed and its number added up.
#[derive(Clone, Copy, Debug, PartialEq, Eq)]
pub enum Team {
    Pair { seed: u64 },
    Crew { planners: u8, seed: u64 },
}

/// A job of one thread. The repair turns of a round are from 1 to 1,000.
#[derive(Clone, Copy, PartialEq, Eq)]
pub enum Task {
    /// Plans a mission.
    Solo { turns: u32 },
    /// Says whether a model is one, or its first fault.
    Check,
    /// Says whether a journal is legal, or its first wrong entry.
    Replay,
    /// Says what the plan is like behind a legal journal.
    Report,
    /// Says how far each activity of the plan behind a legal journal can move, and why the one of this id can move no farther. The id
    /// is up to 999,999,999,999,999,999.
    Flex { id: u64 },
    /// Says where levels of the plan behind a legal journal leave their limits, by the rates that stand before the journal.
    Forecast,
    /// Betters the plan behind a legal journal by so many steps, from 1 to 1,000, if it has no conflicts, by the preferences that stand
    /// before the journal.
    Improve { steps: u32 },
    /// Plans a mission of so many goals, from 1 to 4,000, and says how it ended.
    Demo { goals: u32 },
}

/// Plans a mission and looks ahead. The repair turns of a round are from 1 to 1,000, and up to 1,000,000 plans may be looked at for
/// a message.
#[derive(Clone, Copy, PartialEq, Eq)]
pub struct Ahead {
    pub turns: u32,
    pub worlds: u32,
}
