ghost use Rattle.std.specs.Prelude.{◌≡◌};
ghost use Rattle.pl_marks.specs.Authors.{IsAuthor};
ghost use Rattle.pl_acts.specs.Roles.{role_author};
ghost use Rattle.pl_locked.specs.Plans.{BelongsTo};
ghost use Rattle.pl_locked.specs.Turns.{TakesTurn, Acts, WorksOn};

use crate::plan::{Pass, SharedPlan};
use pl_acts::{Acted, Role};
use pl_machine::Stop;
use pl_marks::Author;
use pl_turn::Gate;
use std::alloc::Global;
use std::sync::Wait;

/// One act with what goes round it. Where it finds nothing to do it waits for the bell.
pub(crate) fn work_once<R: Wait, G: Gate>(
    rt: &R,
    alloc: Global,
    plan: &SharedPlan,
    gate: &G,
    pass: &mut Pass,
    by: Author,
    role: &mut Role,
    acts: u64,
) -> Result<Acted, Stop>
    requires own { BelongsTo plan.now pass.old }
    requires author { IsAuthor by }
    ensures own { BelongsTo plan.now pass.new }
    ensures takes { TakesTurn pass.old pass.new }
    ensures acts { Acts by role.old pass.old result role.new pass.new }
{
    let listener = role.listener();
    let heard = plan.changes(rt, listener);
    let worker = by.worker();
    gate.before(rt, worker, acts);
    plan.give_way(listener);
    let acted = plan.act_as(rt, alloc, pass, by, role);
    match acted {
        Ok(Acted::Did(entry)) => gate.after(rt, worker, entry),
        Ok(Acted::Nothing) => plan.wait(rt, listener, heard),
        _ => {}
    }
    acted
}

/// Acts as this author until the input has ended or the plan was stopped, and answers how many entries it made. A refusal stops the plan.
#[tactic(auto, using(crate::proofs::Progress::working_none, crate::proofs::Progress::works_on, crate::proofs::Progress::works_idle, crate::proofs::Progress::works_finished, crate::proofs::Progress::works_stopped, crate::proofs::Progress::worked_until, crate::proofs::Progress::took_until, crate::proofs::Progress::took_all))]
pub fn work_as<R: Wait, G: Gate>(
    rt: &R,
    alloc: Global,
    plan: &SharedPlan,
    gate: &G,
    pass: &mut Pass,
    by: Author,
    role: &mut Role,
) -> Result<u64, Stop>
    requires own { BelongsTo plan.now pass.old }
    requires author { IsAuthor by }
    ensures own { BelongsTo plan.now pass.new }
    ensures takes { TakesTurn pass.old pass.new }
    ensures works { WorksOn by role.old pass.old result role.new pass.new }
{
    let mut acts = 0;
    for _ in rt.forever() {
        match work_once(rt, alloc, plan, gate, pass, by, role, acts) {
            Ok(Acted::Did(_)) => acts += 1,
            Ok(Acted::Nothing) => {}
            Ok(Acted::Finished | Acted::Stopped) => return Ok(acts),
            Err(stop) => {
                plan.stop_as(rt, pass, by);
                return Err(stop);
            }
        }
    }
    unreachable!()
}

/// [`work_as`] the author of the role, where there is one planner.
pub fn work<R: Wait, G: Gate>(
    rt: &R,
    alloc: Global,
    plan: &SharedPlan,
    gate: &G,
    pass: &mut Pass,
    role: &mut Role,
) -> Result<u64, Stop>
    requires { BelongsTo plan.now pass.old }
    ensures own { BelongsTo plan.now pass.new }
    ensures takes { TakesTurn pass.old pass.new }
    ensures works { WorksOn (role_author role.old) role.old pass.old result role.new pass.new }
{
    let by = role.author();
    work_as(rt, alloc, plan, gate, pass, by, role)
}
