//! The next message goes to the plan.
ghost use Rattle.std.specs.Prelude.{◌≡◌, ◌≤◌, None, IfSome, IsErrOf};
ghost use Rattle.std.specs.Option.{option_copied};
ghost use Rattle.pl_io.specs.Faults.{Rose};
ghost use Rattle.pl_entry.specs.Bounds.{IsMessageLine};
ghost use Rattle.pl_locked.specs.Plans.{BelongsTo};
ghost use Rattle.pl_pair.specs.Cuts.{cut_by};
ghost use Rattle.pl_input.specs.Places.{place_of};
ghost use Rattle.pl_pair.specs.Asking.{FirstLine, Asks, HandsIn, Passes};
ghost use Rattle.pl_pair.specs.Rounds.{Follows};

use crate::cut::Cut;
use pl_input::{halt_of, is_blank_line, line_in, next_message};
use pl_io::{Line, LineFault, LineReader, Source};
use pl_locked::{Pass, SharedPlan};
use pl_machine::Stop;
use std::sync::Wait;

/// The next line, or the fault that the reader met, now or before.
#[tactic(auto, using(crate::proofs::Messages::first_gives))]
fn first_line<S: Source>(lines: &mut LineReader, src: &mut S) -> Result<Option<Line>, LineFault>
    ensures line { FirstLine (place_of lines.old (S.left src.old)) result (place_of lines.new (S.left src.new)) }
    ensures cause { IsErrOf result LineFault.Read → lines.old.failed ≡ None → Rose (S.faults src.old) (S.faults src.new) }
    ensures later { S.faults src.old ≤ S.faults src.new }
{
    lines.next(src)
}

/// The next line that isn't blank, or the fault that the reader met, now or before.
#[tactic(auto, using(crate::proofs::Messages::asks_end, crate::proofs::Messages::asks_first, crate::proofs::Messages::asks_behind, crate::proofs::Messages::first_works))]
fn take_message<S: Source>(lines: &mut LineReader, src: &mut S) -> Result<Option<Line>, LineFault>
    ensures asks { Asks (place_of lines.old (S.left src.old)) result (place_of lines.new (S.left src.new)) }
    ensures cause { IsErrOf result LineFault.Read → lines.old.failed ≡ None → Rose (S.faults src.old) (S.faults src.new) }
    ensures later { S.faults src.old ≤ S.faults src.new }
{
    let Some(line) = first_line(lines, src)? else {
        return Ok(None);
    };
    if is_blank_line(line.bytes()) {
        return next_message(lines, src);
    }
    Ok(Some(line))
}

#[tactic(auto, using(crate::proofs::Passing::took_follows))]
fn feed<R: Wait>(rt: &R, plan: &SharedPlan, pass: &mut Pass, line: Option<&[u8]>) -> Result<(), Cut>
    requires own { BelongsTo plan.now pass.old }
    requires line { IfSome (option_copied line) IsMessageLine }
    ensures own { BelongsTo plan.now pass.new }
    ensures follows { Follows pass.old pass.new }
    ensures hands { HandsIn (option_copied line.entry) pass.old result pass.new }
{
    match plan.feed(rt, pass, line) {
        Ok(_) => Ok(()),
        Err(Stop::LogFull) => Err(Cut::Full),
        Err(Stop::NotNow) => Err(Cut::Stopped),
        Err(Stop::Spoiled | Stop::Memory) => Err(Cut::Memory),
    }
}

/// Why the feeder stops by a fault of its reader.
#[tactic(auto, using(crate::proofs::Messages::halts_by))]
fn cut_by(fault: LineFault) -> Cut
    ensures { result ≡ cut_by fault }
{
    Cut::from(halt_of(fault))
}

/// Reads the next message and hands it to the plan.
#[tactic(auto, using(crate::proofs::Messages::input_fits, crate::proofs::Messages::passes_none, crate::proofs::Messages::passes_on, crate::proofs::Passing::follows_self))]
pub(crate) fn feed_next<R: Wait, S: Source>(
    rt: &R,
    plan: &SharedPlan,
    pass: &mut Pass,
    lines: &mut LineReader,
    src: &mut S,
) -> Result<(), Cut>
    requires own { BelongsTo plan.now pass.old }
    requires limit { lines.old.limit ≤ 4096 }
    ensures own { BelongsTo plan.now pass.new }
    ensures follows { Follows pass.old pass.new }
    ensures passes { Passes (place_of lines.old (S.left src.old)) pass.old result (place_of lines.new (S.left src.new)) pass.new }
    ensures read { IsErrOf result Cut.Read → lines.old.failed ≡ None → Rose (S.faults src.old) (S.faults src.new) }
    ensures later { S.faults src.old ≤ S.faults src.new }
{
    match take_message(lines, src) {
        Ok(message) => feed(rt, plan, pass, line_in(&message)),
        Err(fault) => Err(cut_by(fault)),
    }
}
