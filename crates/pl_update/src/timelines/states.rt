//! Sets and musts of a state, taken and given back.
ghost use Rattle.std.specs.Prelude.{◌≤◌, Some, IfOk};
ghost use Rattle.pl_semantics.specs.declared.demand.Asked.TheVariants as asked;
ghost use Rattle.pl_update.specs.Timelines.Mending.{IsOfSort};
ghost use Rattle.pl_update.specs.Timelines.Changed.{IsLineChanged, HasOne, more_by, less_by};

use crate::timelines::exchange::{Exchange, of_states};
use crate::timelines::line::Line;
use pl_semantics::PlanState;
use pl_state::{Must, Setting};
use std::alloc::{AllocError, Global};

impl Line {
    pub(crate) fn put_set(
        &mut self,
        alloc: Global,
        s: &PlanState,
        line: u32,
        set: Setting,
    ) -> Result<Exchange, AllocError>
        requires later { 1 ≤ set.at }
        requires sort { IsOfSort (Some self.old) (asked.Set set) }
        ensures { IfOk result (λ e. IsLineChanged s.now line (asked.Set set) (more_by (asked.Set set)) self.old self.new e.went.items e.came.items) }
    {
        match self {
            Line::States(states) => {
                let change = states.put(set.at, set.id, set.index, set.state)?;
                of_states(alloc, s, &change)
            }
            _ => unreachable!(),
        }
    }

    pub(crate) fn take_set(
        &mut self,
        alloc: Global,
        s: &PlanState,
        line: u32,
        set: Setting,
    ) -> Result<Exchange, AllocError>
        requires sort { IsOfSort (Some self.old) (asked.Set set) }
        requires stands { HasOne self.old (asked.Set set) }
        ensures { IfOk result (λ e. IsLineChanged s.now line (asked.Set set) (less_by (asked.Set set)) self.old self.new e.went.items e.came.items) }
    {
        match self {
            Line::States(states) => {
                let change = states.take(set.at, set.id, set.index, set.state)?;
                of_states(alloc, s, &change)
            }
            _ => unreachable!(),
        }
    }

    pub(crate) fn need_must(
        &mut self,
        alloc: Global,
        s: &PlanState,
        line: u32,
        must: Must,
    ) -> Result<Exchange, AllocError>
        requires sort { IsOfSort (Some self.old) (asked.Must must) }
        ensures { IfOk result (λ e. IsLineChanged s.now line (asked.Must must) (more_by (asked.Must must)) self.old self.new e.went.items e.came.items) }
    {
        match self {
            Line::States(states) => {
                let change = states.need(must.from, must.to, must.id, must.index, must.state)?;
                of_states(alloc, s, &change)
            }
            _ => unreachable!(),
        }
    }

    pub(crate) fn free_must(
        &mut self,
        alloc: Global,
        s: &PlanState,
        line: u32,
        must: Must,
    ) -> Result<Exchange, AllocError>
        requires sort { IsOfSort (Some self.old) (asked.Must must) }
        requires stands { HasOne self.old (asked.Must must) }
        ensures { IfOk result (λ e. IsLineChanged s.now line (asked.Must must) (less_by (asked.Must must)) self.old self.new e.went.items e.came.items) }
    {
        match self {
            Line::States(states) => {
                let change = states.free(must.from, must.to, must.id, must.index, must.state)?;
                of_states(alloc, s, &change)
            }
            _ => unreachable!(),
        }
    }
}
