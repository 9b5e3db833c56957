use pl_conflict::Conflict;
use pl_lists::{Copied, Items};
use std::alloc::{AllocError, Global};

/// Parameter values, one place for each parameter.
pub type Values = Items<Option<i64>>;

/// Why repair rests: no conflict is left, its turns are spent, or no candidate of any conflict is legal.
#[derive(Clone, Copy, Debug, PartialEq, Eq)]
pub enum Reason {
    Clear,
    Spent,
    Stuck,
}

impl Copied for Reason {
    fn copy(&self, _alloc: Global) -> Result<Reason, AllocError> {
        Ok(*self)
    }
}

/// What the machine answered.
#[derive(Debug, Drop)]
pub enum Reply {
    /// It was done; a message was taken.
    Done,
    /// The run is over: the end line, or the end of the input.
    Ended,
    /// The line has none of the forms of a message.
    BadLine,
    /// The model has nothing of this name that may stand there, or a state is told as a number.
    UnknownName,
    /// A number of the message is out of its range, or a level is told by a name.
    Range,
    /// A goal of this number was taken before, and perhaps dropped.
    DuplicateGoal,
    /// The latest start of the goal lies below the floor.
    TooLate,
    /// The moment of the tick is the present, or before it.
    TickBack,
    /// The moment of the tick is past the horizon.
    TickBeyond,
    /// As many goals as the run may have were taken.
    TooManyGoals,
    /// No activity of this id stands that is firm, committed and has begun.
    NotBegun,
    /// The measured end is the start of the activity, or before it.
    EndBack,
    /// The conflict does not stand.
    Stale,
    /// The move is none of the candidates of the conflict.
    NotFor,
    /// The move would change the activity of this id, which is committed.
    Locked(u32),
    /// The move would put the activity of this id below the floor.
    Behind(u32),
    /// The move would put the activity of this id at the horizon or later.
    Beyond(u32),
    /// After the move more activities would stand than may.
    Full,
    /// Repair rests in this round, for this reason.
    Rested(Reason),
    /// The moment of the commit is not later than the present, or not than what is committed.
    CommitBehind,
    /// The moment of the commit is past the horizon.
    CommitBeyond,
    /// This is the first conflict, and it begins before the moment of the commit.
    Held(Conflict),
    /// The command of an activity, with a place for each parameter of its kind.
    Sent {
        id: u32,
        kind: u32,
        start: u32,
        values: Values,
    },
}

impl Copied for Reply {
    fn copy(&self, alloc: Global) -> Result<Reply, AllocError> {
        match self {
            Reply::Done => Ok(Reply::Done),
            Reply::Ended => Ok(Reply::Ended),
            Reply::BadLine => Ok(Reply::BadLine),
            Reply::UnknownName => Ok(Reply::UnknownName),
            Reply::Range => Ok(Reply::Range),
            Reply::DuplicateGoal => Ok(Reply::DuplicateGoal),
            Reply::TooLate => Ok(Reply::TooLate),
            Reply::TickBack => Ok(Reply::TickBack),
            Reply::TickBeyond => Ok(Reply::TickBeyond),
            Reply::TooManyGoals => Ok(Reply::TooManyGoals),
            Reply::NotBegun => Ok(Reply::NotBegun),
            Reply::EndBack => Ok(Reply::EndBack),
            Reply::Stale => Ok(Reply::Stale),
            Reply::NotFor => Ok(Reply::NotFor),
            Reply::Locked(id) => Ok(Reply::Locked(*id)),
            Reply::Behind(id) => Ok(Reply::Behind(*id)),
            Reply::Beyond(id) => Ok(Reply::Beyond(*id)),
            Reply::Full => Ok(Reply::Full),
            Reply::Rested(reason) => Ok(Reply::Rested(*reason)),
            Reply::CommitBehind => Ok(Reply::CommitBehind),
            Reply::CommitBeyond => Ok(Reply::CommitBeyond),
            Reply::Held(conflict) => Ok(Reply::Held(*conflict)),
            Reply::Sent {
                id,
                kind,
                start,
                values,
            } => Ok(Reply::Sent {
                id: *id,
                kind: *kind,
                start: *start,
                values: values.copy(alloc)?,
            }),
        }
    }
}
