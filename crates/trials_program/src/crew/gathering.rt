use crate::flags::{Flags, are_seen};
use pl_turn::Gate;
use std::sync::Wait;
use std::sync::atomic::{AtomicU64, Ordering};

/// Holds an executive and two planners ahead of their first act until all three have come, and each planner ahead of its second act until the
/// other has made an entry. One thread that acts for two never gets past the first, and a planner that makes every entry not past the second.
#[derive(Drop)]
pub struct Gathering {
    executive: Flags,
    first: Flags,
    second: Flags,
    gave_up: AtomicU64,
}

impl Gathering {
    pub fn new() -> Gathering {
        Gathering {
            executive: Flags::new(),
            first: Flags::new(),
            second: Flags::new(),
            gave_up: AtomicU64::new(0),
        }
    }

    fn flags_of(&self, worker: u8) -> &Flags {
        match worker {
            0 => &self.executive,
            1 => &self.first,
            _ => &self.second,
        }
    }

    /// The two other workers. Of a planner the other planner comes first.
    fn others_of(&self, worker: u8) -> (&Flags, &Flags) {
        match worker {
            0 => (&self.first, &self.second),
            1 => (&self.second, &self.executive),
            _ => (&self.first, &self.executive),
        }
    }

    fn wait_for(&self, flags: &[&AtomicU64]) {
        if !are_seen(flags) {
            self.gave_up.store(1, Ordering::SeqCst);
        }
    }

    /// Whether all came and made an entry, and nobody gave up.
    pub fn was_held(&self) -> bool {
        let flags = [
            &self.executive.came,
            &self.executive.made,
            &self.first.came,
            &self.first.made,
            &self.second.came,
            &self.second.made,
        ];
        flags.iter().all(|flag| flag.load(Ordering::SeqCst) == 1)
            && self.gave_up.load(Ordering::SeqCst) == 0
    }
}

impl Gate for Gathering {
    fn before<R: Wait>(&self, _rt: &R, worker: u8, acts: u64) {
        let (one, two) = self.others_of(worker);
        if acts == 0 {
            self.flags_of(worker).came.store(1, Ordering::SeqCst);
            self.wait_for(&[&one.came, &two.came]);
        } else if worker > 0 {
            self.wait_for(&[&one.made]);
        }
    }

    fn after<R: Wait>(&self, _rt: &R, worker: u8, _entry: u32) {
        self.flags_of(worker).made.store(1, Ordering::SeqCst);
    }
}
