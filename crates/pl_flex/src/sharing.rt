use crate::flex::Flex;
use crate::flexed::Flexed;
use crate::window::Window;
use pl_lists::may_be_shared;

/// Shows that threads may share this crate's types, as long as this compiles.
pub fn shared_types() {
    may_be_shared::<Flex>();
    may_be_shared::<Flexed>();
    may_be_shared::<Window>();
}
