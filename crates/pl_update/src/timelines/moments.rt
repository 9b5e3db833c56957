//! A timeline at a later moment, and with another base.
ghost use Rattle.std.specs.Prelude.{◌≡◌, OnOk, IfOk};
ghost use Rattle.pl_update.specs.Timelines.Told.{wrong_with};
ghost use Rattle.pl_update.specs.Timelines.Changed.{IsExchanged};
ghost use Rattle.pl_update.specs.Timelines.Moments.{at_moment, MayReach, based_on, CanHave};

use crate::timelines::exchange::{Exchange, of_levels, of_spans, of_states};
use crate::timelines::line::Line;
use pl_points::{Ledger, Steps};
use pl_semantics::PlanState;
use std::alloc::{AllocError, Global};

impl Line {
    pub(crate) fn advance<L: Ledger>(
        &mut self,
        alloc: Global,
        s: &PlanState,
        line: u32,
        now: u32,
        steps: &mut Steps<L>,
    ) -> Result<Exchange, AllocError>
        requires { MayReach now self.old }
        ensures moment { OnOk result (self.new ≡ at_moment now self.old) }
        ensures exchanged { IfOk result (λ e. IsExchanged (wrong_with s.now line self.old) (wrong_with s.now line self.new) e.went.items e.came.items) }
    {
        match self {
            Line::Capacity(capacity) => {
                let change = capacity.advance(now, steps)?;
                of_spans(alloc, line, &change)
            }
            Line::Level(level) => {
                let change = level.advance(now, steps)?;
                of_levels(alloc, line, &change)
            }
            Line::States(states) => {
                let change = states.advance(now)?;
                of_states(alloc, s, &change)
            }
        }
    }

    pub(crate) fn rebase<L: Ledger>(
        &mut self,
        alloc: Global,
        s: &PlanState,
        line: u32,
        value: i64,
        steps: &mut Steps<L>,
    ) -> Result<Exchange, AllocError>
        requires { CanHave value self.old }
        ensures base { OnOk result (self.new ≡ based_on value self.old) }
        ensures exchanged { IfOk result (λ e. IsExchanged (wrong_with s.now line self.old) (wrong_with s.now line self.new) e.went.items e.came.items) }
    {
        match self {
            Line::Capacity(_) => unreachable!(),
            Line::Level(level) => {
                let change = level.rebase(value, steps)?;
                of_levels(alloc, line, &change)
            }
            Line::States(states) => {
                let change = states.rebase(value as u32)?;
                of_states(alloc, s, &change)
            }
        }
    }
}
