//! What the workers of a run tell one another through a gate.
use std::sync::atomic::{AtomicU64, Ordering};

/// So often a worker looks at a flag of the others in one call before it gives up.
const MOST_LOADS: u32 = 1_000_000_000;

/// What is known of one worker: whether it has come to its first act, and whether it has made an entry.
#[derive(Drop)]
pub struct Flags {
    pub came: AtomicU64,
    pub made: AtomicU64,
}

impl Flags {
    pub fn new() -> Flags {
        Flags {
            came: AtomicU64::new(0),
            made: AtomicU64::new(0),
        }
    }
}

/// Whether each of these flags is seen to be set. A flag that was seen is not looked at again.
pub fn are_seen(flags: &[&AtomicU64]) -> bool {
    let mut rest = flags;
    for _ in 0..MOST_LOADS {
        match rest {
            [] => return true,
            [first, more @ ..] => {
                if first.load(Ordering::SeqCst) == 1 {
                    rest = more;
                }
            }
        }
    }
    rest.is_empty()
}
