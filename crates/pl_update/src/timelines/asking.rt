//! What is asked of a timeline of any sort, taken and given back.
ghost use Rattle.std.specs.Prelude.{Some, IfOk};
ghost use Rattle.pl_detect.specs.Bounds.{IsBounded};
ghost use Rattle.pl_update.specs.Timelines.Mending.{IsOfSort};
ghost use Rattle.pl_update.specs.Timelines.Changed.{IsLineChanged, HasOne, HasRoom, more_by, less_by};

use crate::timelines::exchange::Exchange;
use crate::timelines::line::Line;
use pl_points::{Ledger, Steps};
use pl_semantics::{Asked, PlanState};
use std::alloc::{AllocError, Global};

impl Line {
    pub(crate) fn take<L: Ledger>(
        &mut self,
        alloc: Global,
        s: &PlanState,
        line: u32,
        asked: Asked,
        steps: &mut Steps<L>,
    ) -> Result<Exchange, AllocError>
        requires bounded { IsBounded asked }
        requires sort { IsOfSort (Some self.old) asked }
        requires room { HasRoom self.old }
        ensures { IfOk result (λ e. IsLineChanged s.now line asked (more_by asked) self.old self.new e.went.items e.came.items) }
    {
        match asked {
            Asked::Use(taken) => self.take_use(alloc, s, line, taken, steps),
            Asked::Effect(taken) => self.take_effect(alloc, s, line, taken, steps),
            Asked::Set(set) => self.put_set(alloc, s, line, set),
            Asked::Must(must) => self.need_must(alloc, s, line, must),
        }
    }

    pub(crate) fn give<L: Ledger>(
        &mut self,
        alloc: Global,
        s: &PlanState,
        line: u32,
        asked: Asked,
        steps: &mut Steps<L>,
    ) -> Result<Exchange, AllocError>
        requires bounded { IsBounded asked }
        requires sort { IsOfSort (Some self.old) asked }
        requires stands { HasOne self.old asked }
        ensures { IfOk result (λ e. IsLineChanged s.now line asked (less_by asked) self.old self.new e.went.items e.came.items) }
    {
        match asked {
            Asked::Use(given) => self.give_use(alloc, s, line, given, steps),
            Asked::Effect(given) => self.give_effect(alloc, s, line, given, steps),
            Asked::Set(set) => self.take_set(alloc, s, line, set),
            Asked::Must(must) => self.free_must(alloc, s, line, must),
        }
    }
}
