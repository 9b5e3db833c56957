//! Types that threads may share.

use crate::accepting::Accepted;
use crate::fault::{ModelFault, What};
use pl_lists::may_be_shared;

/// Faults may be sent to other threads and be read by several at once.
pub fn shared_types() {
    may_be_shared::<Accepted>();
    may_be_shared::<ModelFault>();
    may_be_shared::<What>();
}
