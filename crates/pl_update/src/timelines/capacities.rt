//! Uses of a capacity, taken and given back.
ghost use Rattle.std.specs.Prelude.{Some, IfOk};
ghost use Rattle.pl_capacity.specs.Uses.{IsUse};
ghost use Rattle.pl_semantics.specs.declared.demand.Asked.TheVariants as asked;
ghost use Rattle.pl_update.specs.Timelines.Mending.{IsOfSort};
ghost use Rattle.pl_update.specs.Timelines.Changed.{IsLineChanged, HasOne, HasRoom, more_by, less_by};

use crate::timelines::exchange::{Exchange, of_spans};
use crate::timelines::line::Line;
use pl_capacity::Use;
use pl_points::{Ledger, Steps};
use pl_semantics::PlanState;
use std::alloc::{AllocError, Global};

impl Line {
    pub(crate) fn take_use<L: Ledger>(
        &mut self,
        alloc: Global,
        s: &PlanState,
        line: u32,
        taken: Use,
        steps: &mut Steps<L>,
    ) -> Result<Exchange, AllocError>
        requires is_use { IsUse taken }
        requires sort { IsOfSort (Some self.old) (asked.Use taken) }
        requires room { HasRoom self.old }
        ensures { IfOk result (λ e. IsLineChanged s.now line (asked.Use taken) (more_by (asked.Use taken)) self.old self.new e.went.items e.came.items) }
    {
        match self {
            Line::Capacity(capacity) => {
                let change = capacity.add(taken.from, taken.to, taken.amount, steps)?;
                of_spans(alloc, line, &change)
            }
            _ => unreachable!(),
        }
    }

    pub(crate) fn give_use<L: Ledger>(
        &mut self,
        alloc: Global,
        s: &PlanState,
        line: u32,
        given: Use,
        steps: &mut Steps<L>,
    ) -> Result<Exchange, AllocError>
        requires is_use { IsUse given }
        requires sort { IsOfSort (Some self.old) (asked.Use given) }
        requires stands { HasOne self.old (asked.Use given) }
        ensures { IfOk result (λ e. IsLineChanged s.now line (asked.Use given) (less_by (asked.Use given)) self.old self.new e.went.items e.came.items) }
    {
        match self {
            Line::Capacity(capacity) => {
                let change = capacity.remove(given.from, given.to, given.amount, steps)?;
                of_spans(alloc, line, &change)
            }
            _ => unreachable!(),
        }
    }
}
