//! A round's lines are written once it has closed.
ghost use Rattle.std.specs.Prelude.{◌≤◌, ◌<◌, ◌+◌, length, IsErrOf};
ghost use Rattle.pl_io.specs.Faults.{Rose};
ghost use Rattle.pl_turn.specs.Passes.{seen_of};
ghost use Rattle.pl_acts.specs.Items.{entries_in};
ghost use Rattle.pl_locked.specs.Plans.{BelongsTo};
ghost use Rattle.pl_pair.specs.Workers.{AreHands, SameDuties};
ghost use Rattle.pl_pair.specs.Rounds.{LooksAtPlan, StageOf, RoundEnds};

use crate::cut::Cut;
use crate::hands::Hands;
use crate::waiting::closed_round;
use pl_acts::Part;
use pl_io::Sink;
use pl_journal::write_entries;
use pl_locked::{Pass, SharedPlan};
use pl_model::Model;
use std::alloc::Global;
use std::sync::Wait;

/// Where the run stands behind a round: the number of the next entry, or that the input has ended.
pub enum Stage {
    Waits(u32),
    Ended,
}

fn stage_of(part: &Part, from: u32) -> Result<Stage, Cut>
    requires { from + length part.now.entries ≤ 250000 }
    ensures { StageOf part.now from result }
{
    if part.done {
        return Ok(Stage::Ended);
    }
    if part.stopped {
        return Err(Cut::Stopped);
    }
    Ok(Stage::Waits(from + part.entries.as_slice().len() as u32))
}

/// Waits for the round to close, and writes the lines of the entries from a number on.
#[tactic(auto, using(crate::proofs::Passing::round_ends, crate::proofs::Passing::round_breaks, crate::proofs::Passing::write_rose, crate::proofs::Passing::nothing_written, crate::proofs::Passing::behind_looks, crate::proofs::Passing::within, crate::proofs::Passing::round_short))]
pub(crate) fn write_round<R: Wait, O: Sink>(
    rt: &R,
    alloc: Global,
    plan: &SharedPlan,
    model: &Model,
    pass: &mut Pass,
    hands: &mut Hands<'_>,
    from: u32,
    out: &mut O,
) -> Result<Stage, Cut>
    requires own { BelongsTo plan.now pass.old }
    requires hands { AreHands plan.now hands.old }
    requires from { from < length (entries_in (seen_of pass.old)) }
    ensures own { BelongsTo plan.now pass.new }
    ensures hands { AreHands plan.now hands.new }
    ensures duties { SameDuties hands.old hands.new }
    ensures looks { LooksAtPlan pass.old pass.new }
    ensures ends { RoundEnds model.now from (O.held out.old) result (seen_of pass.new) (O.held out.new) }
    ensures write { IsErrOf result Cut.Write → Rose (O.faults out.old) (O.faults out.new) }
    ensures later { O.faults out.old ≤ O.faults out.new }
{
    let part = closed_round(rt, alloc, plan, pass, hands, from)?;
    write_entries(alloc, model, from, part.entries.as_slice(), out)?;
    stage_of(&part, from)
}
