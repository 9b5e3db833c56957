use pl_entry::Reply;
use pl_lists::Copied;
use std::alloc::{AllocError, Global};

/// What a journal is. A wrong one is told by its first wrong entry, by the first of the causes that stands.
#[derive(Debug, Drop)]
pub enum Verdict {
    /// So many entries, and whether the input has ended.
    Legal { entries: u32, done: bool },
    /// The line of no entry that could stand there.
    NotALine(u32),
    /// The event may not be made.
    NotNow(u32),
    /// The log has as many entries as its opening allows.
    Full(u32),
    /// The machine answers this.
    OtherReply(u32, Reply),
}

impl Copied for Verdict {
    fn copy(&self, alloc: Global) -> Result<Verdict, AllocError> {
        match self {
            Verdict::Legal { entries, done } => {
                Ok(Verdict::Legal {
                    entries: *entries,
                    done: *done,
                })
            }
            Verdict::NotALine(number) => Ok(Verdict::NotALine(*number)),
            Verdict::NotNow(number) => Ok(Verdict::NotNow(*number)),
            Verdict::Full(number) => Ok(Verdict::Full(*number)),
            Verdict::OtherReply(number, reply) => {
                Ok(Verdict::OtherReply(*number, reply.copy(alloc)?))
            }
        }
    }
}
