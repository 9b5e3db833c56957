//! How often goals could not be served: each time less is spent on them, and in the end they are not tried at each message.

use std::alloc::{AllocError, Global};
use std::collections::BTreeMap;

/// The least number of plans that are looked at for a goal in one search.
const LEAST_WORLDS: u32 = 50;

/// A goal is tried in each plan until so many plans have left it open.
const EAGER: u32 = 3;

/// After that it is tried if the number of plans that left it open is a multiple of this.
const PAUSE: u32 = 4;

/// How many plans of messages left goals open, by the numbers of the goals.
#[derive(Drop)]
pub(crate) struct Failures {
    counts: BTreeMap<u32, u32>,
}

impl Failures {
    pub(crate) fn none(alloc: Global) -> Failures {
        Failures {
            counts: BTreeMap::new(alloc),
        }
    }

    fn count(&self, goal: u32) -> u32 {
        match self.counts.get(&goal) {
            Some(count) => *count,
            None => 0,
        }
    }

    /// Counts a plan that leaves a goal open.
    pub(crate) fn add(&mut self, goal: u32) -> Result<(), AllocError> {
        let count = self.count(goal).saturating_add(1);
        self.counts.insert(goal, count)?;
        Ok(())
    }

    /// Whether a goal is to be tried: at first in every plan, and once it failed often only now and then.
    pub(crate) fn is_due(&self, goal: u32) -> bool {
        let count = self.count(goal);
        count < EAGER || count % PAUSE == 0
    }

    /// How many plans may be looked at for a goal, given how many for one that never failed: half as many each time it stayed open.
    pub(crate) fn worlds_for(&self, goal: u32, most: u32) -> u32 {
        let halvings = self.count(goal).min(31);
        (most >> halvings).max(LEAST_WORLDS)
    }
}
