//! A part of the log, copied inside a turn.
ghost use Rattle.std.specs.Prelude.{IfOk};
ghost use Rattle.pl_acts.specs.Inside.{IsPart};

use crate::held::Held;
use crate::part::Part;
use std::alloc::{AllocError, Global};

impl Held {
    /// The entries of the log from a number on.
    pub fn part(&self, alloc: Global, from: u32) -> Result<Part, AllocError>
        ensures { IfOk result (IsPart from self.now) }
    {
        let machine = self.plan.get();
        Ok(Part {
            entries: machine.entries_from(alloc, from)?,
            closed: machine.closed(),
            done: machine.done(),
            stopped: self.stopper.is_some(),
        })
    }
}
