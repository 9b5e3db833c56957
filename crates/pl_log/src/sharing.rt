use crate::log::Log;
use pl_lists::may_be_shared;

/// The types of this crate may be shared among threads.
pub fn shared_types() {
    may_be_shared::<Log>();
}
