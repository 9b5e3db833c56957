//! The timelines at a later moment.
ghost use Rattle.std.specs.Prelude.{◌≡◌, ◌<◌, ◌^◌, All, map, length, slice_get, slice_set, slice_index_or, OnOk};
ghost use Rattle.pl_update.specs.declared.timelines.line.Line.{Line};
ghost use Rattle.pl_update.specs.Timelines.Named.{AreNamed};
ghost use Rattle.pl_update.specs.Timelines.Mending.{IsMended};
ghost use Rattle.pl_update.specs.Timelines.Moments.{at_moment, MayReach, CanHaveAt, rebased_in};

use crate::timelines::lines::Lines;
use pl_conflict::ConflictSet;
use pl_points::{Ledger, Steps};
use pl_semantics::PlanState;
use std::alloc::AllocError;

impl Lines {
    /// Every timeline's present becomes this moment. On want of memory the timelines and the set are in any state.
    pub fn advance<L: Ledger>(
        &mut self,
        s: &PlanState,
        now: u32,
        set: &mut ConflictSet,
        steps: &mut Steps<L>,
    ) -> Result<(), AllocError>
        requires few { length self.old < 2 ^ 32 }
        requires reach { All (MayReach now) self.old }
        requires named { AreNamed s.now self.old }
        ensures mended { OnOk result (IsMended s.now self.old self.new set.old set.new) }
        ensures moved { OnOk result (self.new ≡ map (at_moment now) self.old) }
        ensures named { OnOk result (AreNamed s.now self.new) }
    {
        for line in 0..self.all.len() {
            self.advance_one(s, line as u32, now, set, steps)?;
        }
        Ok(())
    }

    fn advance_one<L: Ledger>(
        &mut self,
        s: &PlanState,
        number: u32,
        now: u32,
        set: &mut ConflictSet,
        steps: &mut Steps<L>,
    ) -> Result<(), AllocError>
        requires number { number < length self.old }
        requires reach { All (MayReach now) self.old }
        requires named { AreNamed s.now self.old }
        ensures mended { OnOk result (IsMended s.now self.old self.new set.old set.new) }
        ensures moved { OnOk result ((d : Line) → self.new ≡ slice_set self.old number (at_moment now (slice_index_or self.old number d))) }
        ensures named { OnOk result (AreNamed s.now self.new) }
    {
        let alloc = self.alloc;
        let line = &mut self.all[number as usize];
        let exchange = line.advance(alloc, s, number, now, steps)?;
        exchange.apply_to(set)?;
        Ok(())
    }

    /// A level, or a state timeline, has this value at its present, and goes on from there. On want of memory the timelines and
    /// the set are in any state.
    pub fn rebase<L: Ledger>(
        &mut self,
        s: &PlanState,
        number: u32,
        value: i64,
        set: &mut ConflictSet,
        steps: &mut Steps<L>,
    ) -> Result<(), AllocError>
        requires based { CanHaveAt value (slice_get self.old number) }
        requires named { AreNamed s.now self.old }
        ensures mended { OnOk result (IsMended s.now self.old self.new set.old set.new) }
        ensures moved { OnOk result (self.new ≡ rebased_in self.old number value (slice_get self.old number)) }
        ensures named { OnOk result (AreNamed s.now self.new) }
    {
        let alloc = self.alloc;
        let line = &mut self.all[number as usize];
        let exchange = line.rebase(alloc, s, number, value, steps)?;
        exchange.apply_to(set)?;
        Ok(())
    }
}
