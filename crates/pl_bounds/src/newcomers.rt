//! States that what comes needs and does not find, and steps that it takes though they are not allowed.
ghost use Rattle.std.specs.Prelude.{◌≡◌, ◌≤◌, false, IsTrue, OnOk, IfOk, slice_get, Some};
ghost use Rattle.pl_conflict.specs.declared.conflict.Code.TheVariants as code;
ghost use Rattle.pl_model.specs.declared.timelines.Timeline.{Timeline};
ghost use Rattle.pl_state.specs.Keys.{Has};
ghost use Rattle.pl_state.specs.Sets.{is_listed, is_allowed};
ghost use Rattle.pl_bounds.specs.Marks.{mark_of};
ghost use Rattle.pl_bounds.specs.Seen.{AreMarksThen, DoesNotAllow, StandsThen};
ghost use Rattle.pl_bounds.specs.Settings.{musts_asked, sets_asked};

use crate::asking::Asking;
use crate::marks::{Mark, add_mark};
use crate::seen::{hangs_on_none, hangs_on_none_before, seen_at};
use pl_board::Board;
use pl_model::{Model, Timeline};
use pl_semantics::{Asked, Demand};
use pl_state::{Must, Setting};
use std::alloc::{AllocError, Global};

// ---- states that are needed

// Whether the timeline has another state at this moment, at which this one is needed, and whether that other state hangs neither on what goes
// nor on what comes.
fn is_unmet_at(board: &Board, asking: &Asking, line: u32, must: &Must, at: u32) -> bool
    requires unspoiled { board.now.spoiled ≡ false }
    requires comes { Has must.now (musts_asked line asking.now.coming.items) }
    ensures { IsTrue result → StandsThen board.now.state asking.now (mark_of code.Must must.now.id must.now.index) }
{
    let _state = board.state();
    let Some(seen) = seen_at(board, line, at) else {
        return false;
    };
    if at < must.from {
        return false;
    }
    if must.to <= at {
        return false;
    }
    if seen.state == must.state {
        return false;
    }
    if !hangs_on_none(board, asking.going.as_slice(), &seen) {
        return false;
    }
    hangs_on_none(board, asking.coming.as_slice(), &seen)
}

// The same at the last moment of the need, at the first, or in the middle.
fn is_unmet(board: &Board, asking: &Asking, line: u32, must: &Must) -> bool
    requires unspoiled { board.now.spoiled ≡ false }
    requires comes { Has must.now (musts_asked line asking.now.coming.items) }
    ensures { IsTrue result → StandsThen board.now.state asking.now (mark_of code.Must must.now.id must.now.index) }
{
    let end = must.to.min(board.model().horizon);
    let middle = must.from.midpoint(end);
    is_unmet_at(board, asking, line, must, end.saturating_sub(1))
        || is_unmet_at(board, asking, line, must, must.from)
        || is_unmet_at(board, asking, line, must, middle)
}

fn mark_must(
    board: &Board,
    asking: &Asking,
    line: u32,
    must: &Must,
    marks: &mut Vec<Mark>,
) -> Result<(), AllocError>
    requires unspoiled { board.now.spoiled ≡ false }
    requires comes { Has must.now (musts_asked line asking.now.coming.items) }
    ensures { OnOk result (AreMarksThen board.now.state asking.now marks.old.items → AreMarksThen board.now.state asking.now marks.new.items) }
{
    if !is_unmet(board, asking, line, must) {
        return Ok(());
    }
    let mark = Mark {
        is_step: false,
        subject: must.id,
        detail: must.index,
    };
    add_mark(marks, mark)?;
    Ok(())
}

// ---- steps

fn is_listed(steps: &[(u32, u32)], from: u32, to: u32) -> bool
    ensures { result ≡ is_listed steps.now from to }
{
    for step in steps {
        if step.0 == from && step.1 == to {
            return true;
        }
    }
    false
}

fn forbids(timeline: &Timeline, from: u32, to: u32) -> bool
    ensures { IsTrue result → DoesNotAllow (Some timeline.now) from to }
{
    match timeline {
        Timeline::States { any, steps, .. } => {
            !(*any || from == to || is_listed(steps.as_slice(), from, to))
        }
        _ => false,
    }
}

// Whether the timeline does not allow the step from the one state to the other.
fn is_forbidden(model: &Model, line: u32, from: u32, to: u32) -> bool
    ensures { IsTrue result → DoesNotAllow (slice_get model.now.timelines line) from to }
{
    match model.timelines.as_slice().get(line as usize) {
        Some(timeline) => forbids(timeline, from, to),
        None => false,
    }
}

// Whether the timeline does not allow the step that a new set takes, from a state that hangs neither on what goes nor on what comes.
fn is_bad_step(board: &Board, asking: &Asking, line: u32, set: &Setting) -> bool
    requires unspoiled { board.now.spoiled ≡ false }
    requires comes { Has set.now (sets_asked line asking.now.coming.items) }
    ensures { IsTrue result → StandsThen board.now.state asking.now (mark_of code.BadStep set.now.id set.now.index) }
{
    let _state = board.state();
    if set.id < board.next_id() {
        return false;
    }
    if set.at <= board.now() {
        return false;
    }
    let Some(seen) = seen_at(board, line, set.at) else {
        return false;
    };
    if !is_forbidden(board.model(), line, seen.state, set.state) {
        return false;
    }
    if !hangs_on_none(board, asking.going.as_slice(), &seen) {
        return false;
    }
    hangs_on_none_before(board, asking.coming.as_slice(), &seen, set)
}

fn mark_step(
    board: &Board,
    asking: &Asking,
    line: u32,
    set: &Setting,
    marks: &mut Vec<Mark>,
) -> Result<(), AllocError>
    requires unspoiled { board.now.spoiled ≡ false }
    requires comes { Has set.now (sets_asked line asking.now.coming.items) }
    ensures { OnOk result (AreMarksThen board.now.state asking.now marks.old.items → AreMarksThen board.now.state asking.now marks.new.items) }
{
    if !is_bad_step(board, asking, line, set) {
        return Ok(());
    }
    let mark = Mark {
        is_step: true,
        subject: set.id,
        detail: set.index,
    };
    add_mark(marks, mark)?;
    Ok(())
}

// ---- both

fn mark_one(
    board: &Board,
    asking: &Asking,
    demand: &Demand,
    marks: &mut Vec<Mark>,
) -> Result<(), AllocError>
    requires unspoiled { board.now.spoiled ≡ false }
    requires comes { Has demand.now asking.now.coming.items }
    ensures { OnOk result (AreMarksThen board.now.state asking.now marks.old.items → AreMarksThen board.now.state asking.now marks.new.items) }
{
    match &demand.asked {
        Asked::Must(must) => mark_must(board, asking, demand.line, must, marks),
        Asked::Set(set) => mark_step(board, asking, demand.line, set, marks),
        _ => Ok(()),
    }
}

/// Marks what is known to be wrong with the states that what comes needs and sets, once what is asked for is exchanged.
pub(crate) fn newcomers(
    alloc: Global,
    board: &Board,
    asking: &Asking,
) -> Result<Vec<Mark>, AllocError>
    requires { board.now.spoiled ≡ false }
    ensures { IfOk result (λ marks. AreMarksThen board.now.state asking.now marks.items) }
{
    let mut marks = Vec::new(alloc);
    for demand in asking.coming.as_slice() {
        mark_one(board, asking, demand, &mut marks)?;
    }
    Ok(marks)
}
