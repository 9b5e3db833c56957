//! Which types may be shared among threads.

use crate::limit::Limit;
use crate::mark::Mark;
use crate::noted::Noted;
use crate::plain::PlainPoints;
use crate::span::{Change, Span};
use crate::steps::{Quiet, Steps};
use crate::told::Told;
use pl_lists::may_be_shared;

/// Shows that threads may share this crate's types, as long as this compiles.
pub fn shared_types() {
    may_be_shared::<Change>();
    may_be_shared::<Limit>();
    may_be_shared::<Mark>();
    may_be_shared::<Noted<u32>>();
    may_be_shared::<PlainPoints>();
    may_be_shared::<Quiet>();
    may_be_shared::<Span>();
    may_be_shared::<Steps<Quiet>>();
    may_be_shared::<Told<u32>>();
}
