//! How somebody who has nothing to do waits.
use std::sync::{Condvar, Mutex, Wait};

/// A count of rings, for which threads wait asleep.
#[derive(Drop)]
pub(crate) struct Bell {
    rings: Mutex<u64>,
    rung: Condvar,
}

impl Bell {
    pub(crate) fn new() -> Bell {
        Bell {
            rings: Mutex::new(0),
            rung: Condvar::new(),
        }
    }

    /// How often it was rung.
    pub(crate) fn rings<R: Wait>(&self, rt: &R) -> u64 {
        *self.rings.lock(rt)
    }

    pub(crate) fn ring<R: Wait>(&self, rt: &R) {
        let mut rings = self.rings.lock(rt);
        *rings = rings.wrapping_add(1);
        drop(rings);
        self.rung.notify_all();
    }

    /// Waits until it was rung more often, or less often, than this.
    pub(crate) fn wait<R: Wait>(&self, rt: &R, heard: u64) {
        let rings = self
            .rung
            .wait_while(rt, self.rings.lock(rt), |rings| *rings == heard);
        drop(rings);
    }
}
