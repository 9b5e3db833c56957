use pl_conflict::Conflict;
use pl_facts::Options;
use pl_lists::{Copied, Items};
use pl_plan::RepairMove;
use std::alloc::{AllocError, Global};

/// Bytes of a message, as they came.
pub type Bytes = Items<u8>;

/// What the machine was asked to do. An input of `None` is the end of the input.
#[derive(Debug, Drop)]
pub enum Event {
    /// The limits of the run: the first entry of a log, and no other.
    Opened(Options),
    /// A message, as it came, or the end of the input. But for the end it opens a round.
    Input(Option<Bytes>),
    /// To repair the conflict by the move.
    Fix(Conflict, RepairMove),
    /// To end the repairs of the round.
    Rest,
    /// To fix for good what starts before the moment.
    Commit(u32),
    /// To send the next command that is due.
    Dispatch,
    /// To end the round.
    Close,
}

impl Copied for Event {
    fn copy(&self, alloc: Global) -> Result<Event, AllocError> {
        match self {
            Event::Opened(options) => Ok(Event::Opened(*options)),
            Event::Input(line) => Ok(Event::Input(line.copy(alloc)?)),
            Event::Fix(conflict, repair) => Ok(Event::Fix(*conflict, *repair)),
            Event::Rest => Ok(Event::Rest),
            Event::Commit(moment) => Ok(Event::Commit(*moment)),
            Event::Dispatch => Ok(Event::Dispatch),
            Event::Close => Ok(Event::Close),
        }
    }
}
