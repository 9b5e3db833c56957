use crate::flags::{Flags, are_seen};
use pl_turn::Gate;
use std::sync::Wait;
use std::sync::atomic::{AtomicU64, Ordering};

/// Holds each worker ahead of its first event until the other has come to its own. One thread that acts for both never gets past
/// the first of the two.
#[derive(Drop)]
pub struct Meeting {
    planner: Flags,
    executive: Flags,
    gave_up: AtomicU64,
}

impl Meeting {
    pub fn new() -> Meeting {
        Meeting {
            planner: Flags::new(),
            executive: Flags::new(),
            gave_up: AtomicU64::new(0),
        }
    }

    /// The flags of a worker, and those of the other.
    fn both(&self, worker: u8) -> (&Flags, &Flags) {
        if worker == 0 {
            (&self.executive, &self.planner)
        } else {
            (&self.planner, &self.executive)
        }
    }

    /// Whether both came and made an entry, and nobody gave up.
    pub fn was_held(&self) -> bool {
        let flags = [
            &self.planner.came,
            &self.planner.made,
            &self.executive.came,
            &self.executive.made,
        ];
        flags.iter().all(|flag| flag.load(Ordering::SeqCst) == 1)
            && self.gave_up.load(Ordering::SeqCst) == 0
    }
}

impl Gate for Meeting {
    fn before<R: Wait>(&self, _rt: &R, worker: u8, acts: u64) {
        if acts > 0 {
            return;
        }
        let (own, other) = self.both(worker);
        own.came.store(1, Ordering::SeqCst);
        let is_met = are_seen(&[&other.came]);
        if !is_met {
            self.gave_up.store(1, Ordering::SeqCst);
        }
    }

    fn after<R: Wait>(&self, _rt: &R, worker: u8, _entry: u32) {
        let (own, _) = self.both(worker);
        own.made.store(1, Ordering::SeqCst);
    }
}
