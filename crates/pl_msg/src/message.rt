use pl_facts::Goal;
use pl_lists::Copied;
use std::alloc::{AllocError, Global};

/// What a line says: a new goal, the value of a level or a state timeline by its number, the present moment, the
/// measured end of the begun activity of an id, that what is committed and has not begun is withdrawn, or that no
/// more will come.
#[derive(Debug, Drop)]
pub enum Message {
    Goal(Goal),
    TeleLevel(u32, i64),
    TeleState(u32, u32),
    Tick(u64),
    Until(u64, u32),
    Halt,
    End,
}

impl Copied for Message {
    fn copy(&self, alloc: Global) -> Result<Message, AllocError> {
        match self {
            Message::Goal(goal) => Ok(Message::Goal(goal.copy(alloc)?)),
            Message::TeleLevel(line, value) => Ok(Message::TeleLevel(*line, *value)),
            Message::TeleState(line, state) => Ok(Message::TeleState(*line, *state)),
            Message::Tick(moment) => Ok(Message::Tick(*moment)),
            Message::Until(id, moment) => Ok(Message::Until(*id, *moment)),
            Message::Halt => Ok(Message::Halt),
            Message::End => Ok(Message::End),
        }
    }
}
