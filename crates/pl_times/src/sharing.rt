use crate::bounds::Bounds;
use crate::timing::Timing;
use pl_lists::may_be_shared;

/// Timings and bounds may be sent to other threads and be read by several at once.
pub fn shared_types() {
    may_be_shared::<Bounds>();
    may_be_shared::<Timing>();
}
