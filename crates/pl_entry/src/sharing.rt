use crate::entry::Entry;
use crate::event::Event;
use crate::reply::{Reason, Reply};
use pl_lists::may_be_shared;

/// The types of this crate may be shared among threads.
pub fn shared_types() {
    may_be_shared::<Event>();
    may_be_shared::<Reason>();
    may_be_shared::<Reply>();
    may_be_shared::<Entry>();
}
