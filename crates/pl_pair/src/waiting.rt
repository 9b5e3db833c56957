//! How the feeder waits for a round to close.
ghost use Rattle.std.specs.Prelude.{◌≡◌, ◌≤◌, ◌||◌, length, IfOk};
ghost use Rattle.pl_turn.specs.Passes.{seen_of};
ghost use Rattle.pl_acts.specs.Items.{entries_in};
ghost use Rattle.pl_locked.specs.Plans.{BelongsTo};
ghost use Rattle.pl_pair.specs.Workers.{AreHands, SameDuties};
ghost use Rattle.pl_pair.specs.Rounds.{LooksAtPlan, IsRound};

use crate::hands::Hands;
use pl_acts::Part;
use pl_locked::{Pass, SharedPlan};
use std::alloc::{AllocError, Global};
use std::sync::Wait;

fn is_over(part: &Part) -> bool
    ensures { result ≡ (part.now.closed || part.now.stopped) }
{
    part.closed || part.stopped
}

/// Waits until the round is closed or the plan was stopped. Meanwhile the feeder acts for the workers that have no thread.
#[tactic(auto, using(crate::proofs::Passing::looks_self, crate::proofs::Passing::looks_more))]
fn wait_closed<R: Wait>(
    rt: &R,
    alloc: Global,
    plan: &SharedPlan,
    pass: &mut Pass,
    hands: &mut Hands<'_>,
)
    requires own { BelongsTo plan.now pass.old }
    requires hands { AreHands plan.now hands.old }
    ensures own { BelongsTo plan.now pass.new }
    ensures hands { AreHands plan.now hands.new }
    ensures duties { SameDuties hands.old hands.new }
    ensures looks { LooksAtPlan pass.old pass.new }
{
    let listener = hands.listener();
    for _ in rt.forever() {
        let heard = plan.changes(rt, listener);
        if plan.round_over(rt, pass) {
            return;
        }
        if !hands.act(rt, alloc, plan) {
            plan.wait(rt, listener, heard);
        }
    }
    unreachable!()
}

/// The entries from a number on, once the round is closed or the plan was stopped.
#[tactic(auto, using(crate::proofs::Passing::looks_self, crate::proofs::Passing::looks_on, crate::proofs::Passing::looks_more, crate::proofs::Passing::within_looks, crate::proofs::Passing::within_seen))]
pub(crate) fn closed_round<R: Wait>(
    rt: &R,
    alloc: Global,
    plan: &SharedPlan,
    pass: &mut Pass,
    hands: &mut Hands<'_>,
    from: u32,
) -> Result<Part, AllocError>
    requires own { BelongsTo plan.now pass.old }
    requires hands { AreHands plan.now hands.old }
    requires from { from ≤ length (entries_in (seen_of pass.old)) }
    ensures own { BelongsTo plan.now pass.new }
    ensures hands { AreHands plan.now hands.new }
    ensures duties { SameDuties hands.old hands.new }
    ensures looks { LooksAtPlan pass.old pass.new }
    ensures round { IfOk result (IsRound from (seen_of pass.new)) }
{
    for _ in rt.forever() {
        wait_closed(rt, alloc, plan, pass, hands);
        let part = plan.copy_from(rt, alloc, pass, from)?;
        if is_over(&part) {
            return Ok(part);
        }
    }
    unreachable!()
}
