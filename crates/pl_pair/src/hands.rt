//! The workers, wherever they are.
use crate::duty::Duty;
use crate::endings::Met;
use crate::worker::Worker;
use pl_acts::Listener;
use pl_locked::{Pass, SharedPlan};
use std::alloc::Global;
use std::sync::Wait;
use std::thread::{Promise, PromisedHandle, Threads};

/// What a thread promises of the worker that it hands back.
#[derive(Drop)]
pub struct Hired<'p> {
    pub plan: &'p SharedPlan,
    pub duty: Duty,
}

impl<'p> Promise<Worker> for Hired<'p> {
    ghost use Rattle.pl_pair.specs.Served.{IsWorker};

    ghost kept_by = { λ p r. IsWorker p.plan.now p.duty r };
}

/// A worker in a thread of its own, or one whose start was refused.
#[derive(Drop)]
pub enum Hand<'p> {
    Away(PromisedHandle<Worker, Hired<'p>>),
    Here(Worker),
}

impl<'p> Hand<'p> {
    ghost use Rattle.std.specs.Prelude.{◌≡◌};
    ghost use Rattle.pl_locked.specs.declared.plan.SharedPlan.{SharedPlan};
    ghost use Rattle.pl_pair.specs.Served.{IsServed};
    ghost use Rattle.pl_pair.specs.Workers.{IsHand, duty_of};

    fn is_away(&self) -> bool {
        match self {
            Hand::Away(_) => true,
            Hand::Here(_) => false,
        }
    }

    /// Acts for a worker that has no thread. Answers whether an entry was made.
    fn act<R: Wait>(&mut self, rt: &R, alloc: Global, plan: &SharedPlan) -> bool
        requires { IsHand plan.now self.old }
        ensures hand { IsHand plan.now self.new }
        ensures duty { duty_of self.new ≡ duty_of self.old }
    {
        match self {
            Hand::Away(_) => false,
            Hand::Here(worker) => worker.act(rt, alloc, plan),
        }
    }

    /// The worker, once its thread has ended.
    pub(crate) fn joined<R: Threads>(self, rt: &R) -> Worker
        ensures served { (plan : SharedPlan) → IsHand plan self.entry → IsServed plan result }
        ensures duty { result.duty ≡ duty_of self.entry }
    {
        match self {
            Hand::Away(child) => child.join(rt),
            Hand::Here(worker) => worker,
        }
    }
}

/// All workers.
#[derive(Drop)]
pub struct Hands<'p> {
    pub all: Vec<Hand<'p>>,
}

impl<'p> Hands<'p> {
    ghost use Rattle.std.specs.Prelude.{◌≡◌, true};
    ghost use Rattle.pl_turn.specs.Passes.{leads};
    ghost use Rattle.pl_locked.specs.Plans.{BelongsTo};
    ghost use Rattle.pl_pair.specs.Workers.{AreHands, SameDuties, duties_of};
    ghost use Rattle.pl_pair.specs.Joins.{JoinsTeam};

    /// Which bell the feeder waits for: its own, unless it acts for workers too.
    pub(crate) fn listener(&self) -> Listener {
        if self.all.iter().all(|hand| hand.is_away()) {
            Listener::Feeder
        } else {
            Listener::Anyone
        }
    }

    /// Acts for the workers that have no thread. Answers whether an entry was made.
    #[tactic(auto, using(crate::proofs::Handing::all_set, crate::proofs::Handing::duties_set))]
    pub(crate) fn act<R: Wait>(&mut self, rt: &R, alloc: Global, plan: &SharedPlan) -> bool
        requires { AreHands plan.now self.old }
        ensures hands { AreHands plan.now self.new }
        ensures duties { SameDuties self.old self.new }
    {
        let mut acted = false;
        for hand in self.all.iter_mut() {
            acted = hand.act(rt, alloc, plan) || acted;
        }
        acted
    }

    /// Joins the workers, whose threads have to end, and takes their passes in. Answers what they met. It takes no memory.
    #[tactic(auto, using(crate::proofs::Handing::joins_none, crate::proofs::Handing::joins_all))]
    pub(crate) fn join_all<R: Threads>(self, rt: &R, plan: &SharedPlan, pass: &mut Pass) -> Met
        requires hands { AreHands plan.now self }
        requires own { BelongsTo plan.now pass.old }
        requires first { leads pass.old ≡ true }
        ensures { JoinsTeam plan.now (duties_of self.entry) pass.old result pass.new }
    {
        let Hands { all } = self;
        let mut met = Met::nothing();
        for hand in all {
            let worker = hand.joined(rt);
            met = met.with(&worker.refusal);
            plan.join(pass, worker.pass);
        }
        met
    }
}
