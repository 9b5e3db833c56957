//! Musts that come with a move, and that are unmet where the move places them.
ghost use Rattle.std.specs.Prelude.{◌≡◌, false, IsTrue, OnOk};
ghost use Rattle.pl_conflict.specs.declared.conflict.Code.TheVariants as code;
ghost use Rattle.pl_semantics.specs.declared.demand.Asked.TheVariants as asked;
ghost use Rattle.pl_state.specs.Keys.{Has};
ghost use Rattle.pl_bounds.specs.Afterwards.{coming_at};
ghost use Rattle.pl_bounds.specs.Marks.{mark_of};
ghost use Rattle.pl_bounds.specs.Seen.{AreMarksAfter, StandsAfter};

use crate::asking::Asking;
use crate::deciding::{are_idle, are_idle_moved};
use crate::marks::{Mark, add_mark};
use crate::seen::seen_at;
use crate::stepwise::Way;
use crate::unmet_musts::UnmetMust;
use pl_board::Board;
use pl_semantics::{Asked, Demand};
use pl_state::Must;
use std::alloc::AllocError;

// So many states that stand one after another are looked at for each need.
const LOOKS: u32 = 6;

// Whether what comes needs a state at this moment if it stands at this start, and the timeline has another state there, which nothing that
// goes or comes decides.
fn is_unmet_at(
    board: &Board,
    asking: &Asking,
    start: u32,
    demand: &Demand,
    must: &Must,
    at: u32,
) -> bool
    requires unspoiled { board.now.spoiled ≡ false }
    requires comes { Has demand.now asking.now.coming.items }
    requires asks { demand.now.asked ≡ asked.Must must.now }
    ensures { IsTrue result → StandsAfter board.now.state asking.now.going.items (coming_at asking.now start) (mark_of code.Must must.now.id must.now.index) }
{
    let _state = board.state();
    let way = Way {
        from: asking.start,
        to: start,
    };
    if u64::from(at) < way.moved(must.from) {
        return false;
    }
    if way.moved(must.to) <= u64::from(at) {
        return false;
    }
    let Some(seen) = seen_at(board, demand.line, at) else {
        return false;
    };
    if seen.state == must.state {
        return false;
    }
    let set = board.last_set(seen.line, seen.at);
    let unmet = UnmetMust {
        must: *must,
        seen,
        set,
    };
    if !are_idle(board, &unmet, asking.going.as_slice()) {
        return false;
    }
    are_idle_moved(board, &unmet, way, asking.coming.as_slice())
}

// The moment right before the last set of a timeline that is at this moment or before it, if there is one.
fn before_last_set(board: &Board, line: u32, at: u32) -> Option<u32>
    requires { board.now.spoiled ≡ false }
{
    let seen = seen_at(board, line, at)?;
    let set = board.last_set(seen.line, seen.at)?;
    set.at.checked_sub(1)
}

// The same at the last moment of the need, or at the last one at which the state before it stands, and so on back through the need.
fn is_unmet(board: &Board, asking: &Asking, start: u32, demand: &Demand, must: &Must) -> bool
    requires unspoiled { board.now.spoiled ≡ false }
    requires comes { Has demand.now asking.now.coming.items }
    requires asks { demand.now.asked ≡ asked.Must must.now }
    ensures { IsTrue result → StandsAfter board.now.state asking.now.going.items (coming_at asking.now start) (mark_of code.Must must.now.id must.now.index) }
{
    let way = Way {
        from: asking.start,
        to: start,
    };
    let from = way.moved(must.from);
    let end = way.moved(must.to).min(u64::from(board.model().horizon)) as u32;
    let mut at = end.saturating_sub(1);
    for _look in 0..LOOKS {
        if u64::from(at) < from {
            return false;
        }
        if is_unmet_at(board, asking, start, demand, must, at) {
            return true;
        }
        let Some(earlier) = before_last_set(board, demand.line, at) else {
            return false;
        };
        at = earlier;
    }
    false
}

fn mark_must(
    board: &Board,
    asking: &Asking,
    start: u32,
    demand: &Demand,
    must: &Must,
    marks: &mut Vec<Mark>,
) -> Result<(), AllocError>
    requires unspoiled { board.now.spoiled ≡ false }
    requires comes { Has demand.now asking.now.coming.items }
    requires asks { demand.now.asked ≡ asked.Must must.now }
    ensures { OnOk result (AreMarksAfter board.now.state asking.now.going.items (coming_at asking.now start) marks.old.items → AreMarksAfter board.now.state asking.now.going.items (coming_at asking.now start) marks.new.items) }
{
    if !is_unmet(board, asking, start, demand, must) {
        return Ok(());
    }
    let mark = Mark {
        is_step: false,
        subject: must.id,
        detail: must.index,
    };
    add_mark(marks, mark)?;
    Ok(())
}

fn mark_one(
    board: &Board,
    asking: &Asking,
    start: u32,
    demand: &Demand,
    marks: &mut Vec<Mark>,
) -> Result<(), AllocError>
    requires unspoiled { board.now.spoiled ≡ false }
    requires comes { Has demand.now asking.now.coming.items }
    ensures { OnOk result (AreMarksAfter board.now.state asking.now.going.items (coming_at asking.now start) marks.old.items → AreMarksAfter board.now.state asking.now.going.items (coming_at asking.now start) marks.new.items) }
{
    match &demand.asked {
        Asked::Must(must) => mark_must(board, asking, start, demand, must, marks),
        _ => Ok(()),
    }
}

/// Adds marks of musts that come and are unmet once what goes is gone, and what comes stands at this start.
pub(crate) fn add_coming_musts(
    board: &Board,
    asking: &Asking,
    start: u32,
    marks: &mut Vec<Mark>,
) -> Result<(), AllocError>
    requires { board.now.spoiled ≡ false }
    ensures { OnOk result (AreMarksAfter board.now.state asking.now.going.items (coming_at asking.now start) marks.old.items → AreMarksAfter board.now.state asking.now.going.items (coming_at asking.now start) marks.new.items) }
{
    for demand in asking.coming.as_slice() {
        mark_one(board, asking, start, demand, marks)?;
    }
    Ok(())
}
