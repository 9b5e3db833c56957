use crate::answer::{BadSet, BrokenMust, StateChange};
use crate::reservation::{Must, Setting};
use crate::timeline::StateTimeline;
use pl_lists::may_be_shared;

/// A state timeline, what it holds and what it answers may be shared between threads.
pub fn shared_types() {
    may_be_shared::<Setting>();
    may_be_shared::<Must>();
    may_be_shared::<BrokenMust>();
    may_be_shared::<BadSet>();
    may_be_shared::<StateChange>();
    may_be_shared::<StateTimeline>();
}
