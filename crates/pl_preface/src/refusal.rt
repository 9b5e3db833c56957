use crate::problem::Problem;

/// Why what stands before a journal is refused. A line is told by its number in the input, from 1.
#[derive(Clone, Copy, PartialEq, Eq)]
pub enum Refusal {
    Faulty(u64, Problem),
    /// One item more than the 64 that may stand there.
    TooMany(u64),
    /// The input ends before the line `journal`.
    NoJournal,
}
