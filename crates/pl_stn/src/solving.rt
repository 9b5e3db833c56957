ghost use Rattle.std.specs.Prelude.{◌≡◌, IfOk, All, length};
ghost use Rattle.pl_stn.specs.Nets.{IsWellFormed, IsSolution, IsLeast, AreBounded, IsNegativeCycle, HasNoSolution, Meets};
ghost use Rattle.pl_stn.specs.Causes.{AreRising, Tightens};
ghost use Rattle.pl_stn.specs.Verdicts.{IfTimes, IfCycle};

use crate::net::Net;
use crate::rising::{Step, tighten};
use crate::starting::first_causes;
use crate::verdict::Verdict;
use pl_lists::Items;
use std::alloc::{AllocError, Global};

/// Tightens each edge once, in order.
fn tighten_all(
    alloc: Global,
    net: &Net,
    times: &mut [i64],
    causes: &mut [Option<u32>],
) -> Result<Step, AllocError>
    requires net { IsWellFormed net.now }
    requires rising { AreRising net.now times.old causes.old }
    ensures { IfOk result (Tightens net.now times.old causes.old times.new causes.new (All (Meets times.old) net.now.edges)) }
{
    let mut raised = false;
    for number in 0..net.edges.len() as u32 {
        match tighten(alloc, net, times, causes, number)? {
            Step::Met => {}
            Step::Raised => raised = true,
            Step::Closed(cycle) => return Ok(Step::Closed(cycle)),
        }
    }
    if raised {
        Ok(Step::Raised)
    } else {
        Ok(Step::Met)
    }
}

/// The least times that meet every edge, or a negative cycle where no times meet every edge. The times rise from 0,
/// as in the method of Bellman and Ford; each raise looks for a cycle among the edges that raised each point last.
pub fn solve(alloc: Global, net: &Net) -> Result<Verdict, AllocError>
    requires { IsWellFormed net.now }
    ensures solution { IfOk result (λ v. IfTimes v (IsSolution net.now)) }
    ensures least { IfOk result (λ v. IfTimes v (IsLeast net.now)) }
    ensures bounded { IfOk result (λ v. IfTimes v (AreBounded net.now)) }
    ensures cycle { IfOk result (λ v. IfCycle v (IsNegativeCycle net.now)) }
    ensures none { IfOk result (λ v. IfCycle v (λ _. HasNoSolution net.now)) }
{
    let mut times: Vec<i64> = vec![in alloc; 0; net.points as usize]?;
    let mut causes = first_causes(alloc, net)?;
    'passes: loop {
        match tighten_all(alloc, net, times.as_mut_slice(), causes.as_mut_slice())? {
            Step::Met => return Ok(Verdict::Times(Items::from_vec(times))),
            Step::Raised => {}
            Step::Closed(cycle) => return Ok(Verdict::Cycle(Items::from_vec(cycle))),
        }
    }
}
