//! Effects on a level, taken and given back.
ghost use Rattle.std.specs.Prelude.{Some, IfOk};
ghost use Rattle.pl_level.specs.Effects.{IsEffect};
ghost use Rattle.pl_semantics.specs.declared.demand.Asked.TheVariants as asked;
ghost use Rattle.pl_update.specs.Timelines.Mending.{IsOfSort};
ghost use Rattle.pl_update.specs.Timelines.Changed.{IsLineChanged, HasOne, HasRoom, more_by, less_by};

use crate::timelines::exchange::{Exchange, of_levels};
use crate::timelines::line::Line;
use pl_level::Effect;
use pl_points::{Ledger, Steps};
use pl_semantics::PlanState;
use std::alloc::{AllocError, Global};

impl Line {
    pub(crate) fn take_effect<L: Ledger>(
        &mut self,
        alloc: Global,
        s: &PlanState,
        line: u32,
        taken: Effect,
        steps: &mut Steps<L>,
    ) -> Result<Exchange, AllocError>
        requires is_effect { IsEffect taken }
        requires sort { IsOfSort (Some self.old) (asked.Effect taken) }
        requires room { HasRoom self.old }
        ensures { IfOk result (λ e. IsLineChanged s.now line (asked.Effect taken) (more_by (asked.Effect taken)) self.old self.new e.went.items e.came.items) }
    {
        match self {
            Line::Level(level) => {
                let change = level.add(taken.at, taken.delta, steps)?;
                of_levels(alloc, line, &change)
            }
            _ => unreachable!(),
        }
    }

    pub(crate) fn give_effect<L: Ledger>(
        &mut self,
        alloc: Global,
        s: &PlanState,
        line: u32,
        given: Effect,
        steps: &mut Steps<L>,
    ) -> Result<Exchange, AllocError>
        requires is_effect { IsEffect given }
        requires sort { IsOfSort (Some self.old) (asked.Effect given) }
        requires stands { HasOne self.old (asked.Effect given) }
        ensures { IfOk result (λ e. IsLineChanged s.now line (asked.Effect given) (less_by (asked.Effect given)) self.old self.new e.went.items e.came.items) }
    {
        match self {
            Line::Level(level) => {
                let change = level.remove(given.at, given.delta, steps)?;
                of_levels(alloc, line, &change)
            }
            _ => unreachable!(),
        }
    }
}
