ghost use Rattle.std.specs.Prelude.{◌≡◌, false, drop, IfOk};

use crate::found::Found;
use crate::machine::Machine;
use crate::schedule::Schedule;
use pl_entry::Entry;
use pl_lists::Items;
use std::alloc::{AllocError, Global};

impl Schedule {
    fn copy(&self, alloc: Global) -> Result<Schedule, AllocError>
        ensures due { IfOk result (λ s. s.due.items ≡ self.now.due.items) }
        ensures ahead { IfOk result (λ s. s.ahead ≡ self.now.ahead) }
        ensures ranges { IfOk result (λ s. s.ranges.items ≡ self.now.ranges.items) }
    {
        Ok(Schedule {
            due: Vec::from_slice(alloc, &self.due)?,
            ahead: self.ahead,
            ranges: Vec::from_slice(alloc, &self.ranges)?,
            found: Found::new(alloc),
        })
    }
}

impl Machine {
    /// The entries of the log from a number on, with memory of their own.
    pub fn entries_from(&self, alloc: Global, from: u32) -> Result<Items<Entry>, AllocError>
        ensures { IfOk result (λ entries. entries ≡ drop from self.now.log) }
    {
        self.log.entries_from(alloc, from as usize)
    }

    /// A machine in the same world and with the same log, with memory of its own.
    pub fn copy(&self, alloc: Global) -> Result<Machine, AllocError>
        requires { self.now.spoiled ≡ false }
        ensures { IfOk result (λ m. m ≡ self.now) }
    {
        Ok(Machine {
            alloc,
            model: self.model.share()?,
            board: self.board.copy(alloc)?,
            options: self.options,
            schedule: self.schedule.copy(alloc)?,
            sent: self.sent,
            round: self.round,
            done: self.done,
            log: self.log.copy(alloc)?,
        })
    }
}
