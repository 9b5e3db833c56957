use crate::fault::ParseFault;
use crate::message::Message;
use pl_lists::may_be_shared;

/// Messages and faults may be shared between threads.
pub fn shared_types() {
    may_be_shared::<Message>();
    may_be_shared::<ParseFault>();
}
