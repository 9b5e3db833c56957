use crate::command::{Ahead, Command, Task};
use pl_lists::may_be_shared;

/// What the words ask for may be shared between threads.
pub fn shared_types() {
    may_be_shared::<Ahead>();
    may_be_shared::<Command>();
    may_be_shared::<Task>();
}
