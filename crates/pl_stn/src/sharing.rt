use crate::net::{Edge, Net};
use crate::verdict::Verdict;
use pl_lists::may_be_shared;

/// Nets and verdicts may be sent to other threads and be read by several at once.
pub fn shared_types() {
    may_be_shared::<Edge>();
    may_be_shared::<Net>();
    may_be_shared::<Verdict>();
}
