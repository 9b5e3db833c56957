//! What is asked of the timelines, given back and taken, with the set mended.
ghost use Rattle.std.specs.Prelude.{All, OnOk};
ghost use Rattle.pl_update.specs.Timelines.Held.{asked_at, HoldAll, HaveRoom};
ghost use Rattle.pl_update.specs.Timelines.Named.{AreNamed};
ghost use Rattle.pl_update.specs.Timelines.Mending.{IsMended, IsMoved, less, CanAsk};
ghost use Rattle.pl_update.specs.Timelines.Changed.{just, less_just, HasRoomFor, HoldsOne};

use crate::timelines::lines::Lines;
use pl_conflict::ConflictSet;
use pl_points::{Ledger, Steps};
use pl_semantics::{Demand, PlanState};
use std::alloc::AllocError;

impl Lines {
    /// Takes on what the demands ask. On want of memory the timelines and the set are in any state.
    pub fn take_on<L: Ledger>(
        &mut self,
        s: &PlanState,
        demands: &[Demand],
        set: &mut ConflictSet,
        steps: &mut Steps<L>,
    ) -> Result<(), AllocError>
        requires asked { All (CanAsk s.now self.old) demands.now }
        requires room { HaveRoom self.old demands.now }
        requires named { AreNamed s.now self.old }
        ensures mended { OnOk result (IsMended s.now self.old self.new set.old set.new) }
        ensures moved { OnOk result (IsMoved self.old self.new (asked_at demands.now)) }
        ensures named { OnOk result (AreNamed s.now self.new) }
    {
        for demand in demands {
            self.take_one(s, *demand, set, steps)?;
        }
        Ok(())
    }

    /// Gives back what the demands ask. On want of memory the timelines and the set are in any state.
    pub fn give_back<L: Ledger>(
        &mut self,
        s: &PlanState,
        demands: &[Demand],
        set: &mut ConflictSet,
        steps: &mut Steps<L>,
    ) -> Result<(), AllocError>
        requires asked { All (CanAsk s.now self.old) demands.now }
        requires held { HoldAll self.old demands.now }
        requires named { AreNamed s.now self.old }
        ensures mended { OnOk result (IsMended s.now self.old self.new set.old set.new) }
        ensures moved { OnOk result (IsMoved self.old self.new (less demands.now)) }
        ensures named { OnOk result (AreNamed s.now self.new) }
    {
        for demand in demands {
            self.give_one(s, *demand, set, steps)?;
        }
        Ok(())
    }

    fn take_one<L: Ledger>(
        &mut self,
        s: &PlanState,
        demand: Demand,
        set: &mut ConflictSet,
        steps: &mut Steps<L>,
    ) -> Result<(), AllocError>
        requires asked { CanAsk s.now self.old demand }
        requires room { HasRoomFor self.old demand }
        requires named { AreNamed s.now self.old }
        ensures mended { OnOk result (IsMended s.now self.old self.new set.old set.new) }
        ensures moved { OnOk result (IsMoved self.old self.new (just demand)) }
        ensures named { OnOk result (AreNamed s.now self.new) }
    {
        let alloc = self.alloc;
        let line = &mut self.all[demand.line as usize];
        let exchange = line.take(alloc, s, demand.line, demand.asked, steps)?;
        exchange.apply_to(set)?;
        Ok(())
    }

    fn give_one<L: Ledger>(
        &mut self,
        s: &PlanState,
        demand: Demand,
        set: &mut ConflictSet,
        steps: &mut Steps<L>,
    ) -> Result<(), AllocError>
        requires asked { CanAsk s.now self.old demand }
        requires held { HoldsOne self.old demand }
        requires named { AreNamed s.now self.old }
        ensures mended { OnOk result (IsMended s.now self.old self.new set.old set.new) }
        ensures moved { OnOk result (IsMoved self.old self.new (less_just demand)) }
        ensures named { OnOk result (AreNamed s.now self.new) }
    {
        let alloc = self.alloc;
        let line = &mut self.all[demand.line as usize];
        let exchange = line.give(alloc, s, demand.line, demand.asked, steps)?;
        exchange.apply_to(set)?;
        Ok(())
    }
}
