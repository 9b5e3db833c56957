use crate::boxed::Boxed;
use crate::items::Items;

/// Holds of a type whose values may be sent to other threads and be read by several at once: a
/// crate shows this of its types by calls of it.
pub fn may_be_shared<T: Send + Sync>() {}

/// Lists and boxes may be shared where what they hold may be.
pub fn shared_types<T: Send + Sync>() {
    may_be_shared::<Items<T>>();
    may_be_shared::<Boxed<T>>();
    may_be_shared::<Boxed<Items<T>>>();
}
