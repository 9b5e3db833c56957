use crate::problem::Problem;
use crate::refusal::Refusal;
use pl_lists::Items;

/// What a line before a journal is.
#[derive(Drop)]
pub(crate) enum Found<T> {
    Journal,
    Blank,
    Item(T),
    Faulty(Problem),
}

/// How the reading goes on behind a line, with the items so far.
#[derive(Drop)]
pub(crate) enum Step<T> {
    More(Items<T>),
    Given(Items<T>),
    Refused(Refusal),
    /// There was no line.
    Ended,
}
