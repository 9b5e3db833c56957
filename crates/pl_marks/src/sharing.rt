use crate::author::Author;
use crate::mark::Mark;
use crate::marks::Marks;
use pl_lists::may_be_shared;

/// The types of this crate may be shared among threads.
pub fn shared_types() {
    may_be_shared::<Author>();
    may_be_shared::<Mark>();
    may_be_shared::<Marks>();
}
