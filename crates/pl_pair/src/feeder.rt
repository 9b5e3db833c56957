//! The feeder: it alone reads and writes.
ghost use Rattle.std.specs.Prelude.{◌≡◌, ◌≤◌, ◌<◌, [], length, None, IsErrOf};
ghost use Rattle.pl_io.specs.Faults.{Rose};
ghost use Rattle.pl_turn.specs.Passes.{seen_of, mine_of};
ghost use Rattle.pl_acts.specs.Items.{entries_in};
ghost use Rattle.pl_locked.specs.Plans.{BelongsTo};
ghost use Rattle.pl_pair.specs.Workers.{AreHands, SameDuties};
ghost use Rattle.pl_input.specs.Places.{place_of};
ghost use Rattle.pl_pair.specs.Asking.{PassesTo};
ghost use Rattle.pl_pair.specs.Rounds.{Follows};
ghost use Rattle.pl_pair.specs.Feeds.{FeedsRoundOrStops, FeedsAll, FeedsToEnd};

use crate::asking::feed_next;
use crate::cut::Cut;
use crate::hands::Hands;
use crate::rounds::{Stage, write_round};
use pl_io::{LineReader, Sink, Source};
use pl_locked::{Pass, SharedPlan};
use pl_model::Model;
use std::alloc::Global;
use std::sync::Wait;

/// Hands the next message to the plan, and answers the number of the next line.
fn feed_behind<R: Wait, S: Source>(
    rt: &R,
    plan: &SharedPlan,
    pass: &mut Pass,
    next: u32,
    lines: &mut LineReader,
    src: &mut S,
) -> Result<Option<u32>, Cut>
    requires own { BelongsTo plan.now pass.old }
    requires limit { lines.old.limit ≤ 4096 }
    ensures own { BelongsTo plan.now pass.new }
    ensures follows { Follows pass.old pass.new }
    ensures passes { PassesTo next (place_of lines.old (S.left src.old)) pass.old result (place_of lines.new (S.left src.new)) pass.new }
    ensures read { IsErrOf result Cut.Read → lines.old.failed ≡ None → Rose (S.faults src.old) (S.faults src.new) }
    ensures later { S.faults src.old ≤ S.faults src.new }
{
    match feed_next(rt, plan, pass, lines, src) {
        Ok(()) => Ok(Some(next)),
        Err(cut) => Err(cut),
    }
}

/// Writes the lines of a round once it has closed, and hands the next message to the plan. `None` where the input has ended.
#[tactic(auto, using(crate::proofs::Feeding::step_out, crate::proofs::Feeding::step_round, crate::proofs::Feeding::round_no_read, crate::proofs::Feeding::passes_no_write))]
fn step<R: Wait, S: Source, O: Sink>(
    rt: &R,
    alloc: Global,
    plan: &SharedPlan,
    model: &Model,
    pass: &mut Pass,
    hands: &mut Hands<'_>,
    from: u32,
    lines: &mut LineReader,
    src: &mut S,
    out: &mut O,
) -> Result<Option<u32>, Cut>
    requires own { BelongsTo plan.now pass.old }
    requires hands { AreHands plan.now hands.old }
    requires from { from < length (entries_in (seen_of pass.old)) }
    requires limit { lines.old.limit ≤ 4096 }
    ensures own { BelongsTo plan.now pass.new }
    ensures hands { AreHands plan.now hands.new }
    ensures duties { SameDuties hands.old hands.new }
    ensures steps { FeedsRoundOrStops plan.now model.now from (place_of lines.old (S.left src.old)) pass.old (O.held out.old) result
        (place_of lines.new (S.left src.new)) pass.new (O.held out.new) }
    ensures read { IsErrOf result Cut.Read → lines.old.failed ≡ None → Rose (S.faults src.old) (S.faults src.new) }
    ensures write { IsErrOf result Cut.Write → Rose (O.faults out.old) (O.faults out.new) }
    ensures later { (S.faults src.old ≤ S.faults src.new) × (O.faults out.old ≤ O.faults out.new) }
{
    match write_round(rt, alloc, plan, model, pass, hands, from, out)? {
        Stage::Ended => Ok(None),
        Stage::Waits(next) => feed_behind(rt, plan, pass, next, lines, src),
    }
}

/// Hands all messages to the plan up to the end, and writes each round's lines once the round has closed.
#[tactic(auto, using(crate::proofs::Feeding::feeding_limit, crate::proofs::Feeding::feeding_works))]
fn feed_all<R: Wait, S: Source, O: Sink>(
    rt: &R,
    alloc: Global,
    plan: &SharedPlan,
    model: &Model,
    pass: &mut Pass,
    hands: &mut Hands<'_>,
    lines: &mut LineReader,
    src: &mut S,
    out: &mut O,
) -> Result<(), Cut>
    requires own { BelongsTo plan.now pass.old }
    requires new { mine_of pass.old ≡ [] }
    requires hands { AreHands plan.now hands.old }
    requires limit { lines.old.limit ≤ 4096 }
    ensures own { BelongsTo plan.now pass.new }
    ensures hands { AreHands plan.now hands.new }
    ensures duties { SameDuties hands.old hands.new }
    ensures feeds { FeedsAll plan.now model.now pass.old (place_of lines.old (S.left src.old)) (O.held out.old) result pass.new
        (place_of lines.new (S.left src.new)) (O.held out.new) }
    ensures read { IsErrOf result Cut.Read → lines.old.failed ≡ None → Rose (S.faults src.old) (S.faults src.new) }
    ensures write { IsErrOf result Cut.Write → Rose (O.faults out.old) (O.faults out.new) }
    ensures later { O.faults out.old ≤ O.faults out.new }
{
    let mut from = 0;
    for _ in rt.forever() {
        match step(rt, alloc, plan, model, pass, hands, from, lines, src, out) {
            Ok(Some(next)) => from = next,
            Ok(None) => return Ok(()),
            Err(cut) => return Err(cut),
        }
    }
    unreachable!()
}

/// Feeds the plan round after round up to the end of the input, and stops it where the feeder goes no further.
#[tactic(auto, using(crate::proofs::Feeding::ends_stopped))]
pub(crate) fn feed_or_stop<R: Wait, S: Source, O: Sink>(
    rt: &R,
    alloc: Global,
    plan: &SharedPlan,
    model: &Model,
    pass: &mut Pass,
    hands: &mut Hands<'_>,
    lines: &mut LineReader,
    src: &mut S,
    out: &mut O,
) -> Result<(), Cut>
    requires own { BelongsTo plan.now pass.old }
    requires new { mine_of pass.old ≡ [] }
    requires hands { AreHands plan.now hands.old }
    requires limit { lines.old.limit ≤ 4096 }
    ensures own { BelongsTo plan.now pass.new }
    ensures hands { AreHands plan.now hands.new }
    ensures duties { SameDuties hands.old hands.new }
    ensures feeds { FeedsToEnd plan.now model.now pass.old (place_of lines.old (S.left src.old)) (O.held out.old) result pass.new
        (place_of lines.new (S.left src.new)) (O.held out.new) }
    ensures read { IsErrOf result Cut.Read → lines.old.failed ≡ None → Rose (S.faults src.old) (S.faults src.new) }
    ensures write { IsErrOf result Cut.Write → Rose (O.faults out.old) (O.faults out.new) }
    ensures later { O.faults out.old ≤ O.faults out.new }
{
    match feed_all(rt, alloc, plan, model, pass, hands, lines, src, out) {
        Ok(()) => Ok(()),
        Err(cut) => {
            plan.stop(rt, pass);
            Err(cut)
        }
    }
}
