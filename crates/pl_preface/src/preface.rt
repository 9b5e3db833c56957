use crate::refusal::Refusal;
use pl_lists::Items;

/// What stands before a journal.
#[derive(Drop)]
pub enum Preface<T> {
    Given(Items<T>),
    Refused(Refusal),
}
