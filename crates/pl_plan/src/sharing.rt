use crate::activity::Activity;
use crate::evaluated::Evaluated;
use crate::plan::Plan;
use crate::repair::RepairMove;
use pl_lists::may_be_shared;

/// The types of this crate may be shared among threads.
pub fn shared_types() {
    may_be_shared::<Activity>();
    may_be_shared::<Plan>();
    may_be_shared::<Evaluated>();
    may_be_shared::<RepairMove>();
}
