use crate::bases::Bases;
use crate::goal::Goal;
use crate::goals::Goals;
use crate::options::Options;
use pl_lists::may_be_shared;

/// The types of this crate may be shared among threads.
pub fn shared_types() {
    may_be_shared::<Goal>();
    may_be_shared::<Goals>();
    may_be_shared::<Bases>();
    may_be_shared::<Options>();
}
