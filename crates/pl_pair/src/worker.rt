//! A worker, in a thread of its own or in the feeder's.
ghost use Rattle.std.specs.Prelude.{◌≡◌, None};
ghost use Rattle.pl_pair.specs.Served.{IsHired, IsServed, IsWorker};

use crate::duty::Duty;
use pl_acts::{Acted, Role};
use pl_locked::{Pass, SharedPlan, work_as};
use pl_machine::Stop;
use pl_turn::Gate;
use std::alloc::Global;
use std::sync::Wait;
use std::sync::atomic::{AtomicBool, Ordering};

/// What a worker hands back: its pass, its role, what it was hired for, and the refusal that it met, for which it stopped the plan.
#[derive(Drop)]
pub struct Worker {
    pub pass: Pass,
    pub role: Role,
    pub duty: Duty,
    pub refusal: Option<Stop>,
}

/// Works until the plan is over.
fn serve<R: Wait, G: Gate>(
    rt: &R,
    alloc: Global,
    plan: &SharedPlan,
    gate: &G,
    mut pass: Pass,
    duty: Duty,
) -> Worker
    requires { IsHired plan.now duty pass }
    ensures { IsWorker plan.now duty result }
{
    let mut role = duty.role();
    match work_as(rt, alloc, plan, gate, &mut pass, duty.author(), &mut role) {
        Ok(_) => Worker {
            pass,
            role,
            duty,
            refusal: None,
        },
        Err(stop) => Worker {
            pass,
            role,
            duty,
            refusal: Some(stop),
        },
    }
}

/// Works, unless the start of its thread was refused.
#[tactic(auto, using(crate::proofs::Working::served_none))]
pub(crate) fn serve_unless<R: Wait, G: Gate>(
    rt: &R,
    alloc: Global,
    plan: &SharedPlan,
    gate: &G,
    pass: Pass,
    duty: Duty,
    refused: &AtomicBool,
) -> Worker
    requires { IsHired plan.now duty pass }
    ensures { IsWorker plan.now duty result }
{
    if refused.load(Ordering::SeqCst) {
        return Worker {
            pass,
            role: duty.role(),
            duty,
            refusal: None,
        };
    }
    serve(rt, alloc, plan, gate, pass, duty)
}

impl Worker {
    /// One act of a worker that met no refusal. Answers whether an entry was made. A refusal stops the plan.
    #[tactic(auto, using(crate::proofs::Working::acts_on, crate::proofs::Working::acts_until))]
    fn act_once<R: Wait>(&mut self, rt: &R, alloc: Global, plan: &SharedPlan) -> bool
        requires served { IsServed plan.now self.old }
        requires going { self.old.refusal ≡ None }
        ensures served { IsServed plan.now self.new }
        ensures duty { self.new.duty ≡ self.old.duty }
    {
        let by = self.duty.author();
        match plan.act_as(rt, alloc, &mut self.pass, by, &mut self.role) {
            Ok(Acted::Did(_)) => true,
            Ok(_) => false,
            Err(stop) => {
                plan.stop_as(rt, &mut self.pass, by);
                self.refusal = Some(stop);
                false
            }
        }
    }

    /// One act in the feeder's own thread. Answers whether an entry was made.
    pub(crate) fn act<R: Wait>(&mut self, rt: &R, alloc: Global, plan: &SharedPlan) -> bool
        requires { IsServed plan.now self.old }
        ensures served { IsServed plan.now self.new }
        ensures duty { self.new.duty ≡ self.old.duty }
    {
        match self.refusal {
            Some(_) => false,
            None => self.act_once(rt, alloc, plan),
        }
    }
}
