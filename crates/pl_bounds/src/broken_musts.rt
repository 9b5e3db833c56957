//! States that other activities need and that a new set changes.
ghost use Rattle.std.specs.Prelude.{◌≡◌, ◌∷◌, [], ℕ, true, false, IsTrue, OnOk};
ghost use Rattle.pl_conflict.specs.declared.conflict.Code.TheVariants as code;
ghost use Rattle.pl_semantics.specs.Demands.{demands_of, musts_of};
ghost use Rattle.pl_state.specs.Keys.{Has};
ghost use Rattle.pl_state.specs.Musts.{holds_at};
ghost use Rattle.pl_bounds.specs.Marks.{mark_of};
ghost use Rattle.pl_bounds.specs.Seen.{AreMarksThen, IsNewLast, StandsThen};
ghost use Rattle.pl_bounds.specs.Settings.{musts_asked, sets_asked};

use crate::asking::Asking;
use crate::marks::{Mark, add_mark};
use crate::seen::{is_last, seen_at};
use pl_board::Board;
use pl_semantics::{Asked, Demand};
use pl_state::{Must, Setting};
use std::alloc::AllocError;

// Whether the demand is not this must.
fn is_of_other(demand: &Demand, must: &Must) -> bool
    ensures { IsTrue result → (line : ℕ) → Has must.now (musts_asked line (demand.now ∷ [])) → ⊥ }
{
    match demand.asked {
        Asked::Must(asked) => asked.id != must.id || asked.index != must.index,
        _ => true,
    }
}

/// Whether none of the demands is this must.
pub(crate) fn are_of_others(demands: &[Demand], must: &Must) -> bool
    ensures { IsTrue result → (line : ℕ) → Has must.now (musts_asked line demands.now) → ⊥ }
{
    for demand in demands {
        if !is_of_other(demand, must) {
            return false;
        }
    }
    true
}

// Whether the set changes the state that this must needs, and the must stays.
fn is_broken(board: &Board, asking: &Asking, line: u32, set: &Setting, must: &Must) -> bool
    requires unspoiled { board.now.spoiled ≡ false }
    requires new { IsNewLast board.now.state asking.now line set.now }
    requires needed { Has must.now (musts_of line (demands_of board.now.state)) }
    requires holds { holds_at set.now.at must.now ≡ true }
    ensures { IsTrue result → StandsThen board.now.state asking.now (mark_of code.Must must.now.id must.now.index) }
{
    let _state = board.state();
    if must.state == set.state {
        return false;
    }
    are_of_others(asking.going.as_slice(), must)
}

// Marks the must if the set changes the state that it needs.
fn mark_must(
    board: &Board,
    asking: &Asking,
    line: u32,
    set: &Setting,
    must: &Must,
    marks: &mut Vec<Mark>,
) -> Result<(), AllocError>
    requires unspoiled { board.now.spoiled ≡ false }
    requires new { IsNewLast board.now.state asking.now line set.now }
    requires needed { Has must.now (musts_of line (demands_of board.now.state)) }
    requires holds { holds_at set.now.at must.now ≡ true }
    ensures { OnOk result (AreMarksThen board.now.state asking.now marks.old.items → AreMarksThen board.now.state asking.now marks.new.items) }
{
    if !is_broken(board, asking, line, set, must) {
        return Ok(());
    }
    let mark = Mark {
        is_step: false,
        subject: must.id,
        detail: must.index,
    };
    add_mark(marks, mark)?;
    Ok(())
}

// The same for all musts that hold at the moment of the set.
fn mark_all(
    board: &Board,
    asking: &Asking,
    line: u32,
    set: &Setting,
    marks: &mut Vec<Mark>,
) -> Result<(), AllocError>
    requires unspoiled { board.now.spoiled ≡ false }
    requires new { IsNewLast board.now.state asking.now line set.now }
    ensures { OnOk result (AreMarksThen board.now.state asking.now marks.old.items → AreMarksThen board.now.state asking.now marks.new.items) }
{
    let musts = board.musts_at(line, set.at)?;
    for must in musts.as_slice() {
        mark_must(board, asking, line, set, must, marks)?;
    }
    Ok(())
}

// Whether the set is new, lies ahead, and none that comes stands behind it at its moment: then it decides the state there.
fn is_new_last(board: &Board, asking: &Asking, line: u32, set: &Setting) -> bool
    requires unspoiled { board.now.spoiled ≡ false }
    requires comes { Has set.now (sets_asked line asking.now.coming.items) }
    ensures { IsTrue result → IsNewLast board.now.state asking.now line set.now }
{
    if set.id < board.next_id() {
        return false;
    }
    if set.at <= board.now() {
        return false;
    }
    let Some(_seen) = seen_at(board, line, set.at) else {
        return false;
    };
    is_last(asking.coming.as_slice(), line, set)
}

// Marks states that other activities need and that this set changes, which comes.
fn mark_broken(
    board: &Board,
    asking: &Asking,
    line: u32,
    set: &Setting,
    marks: &mut Vec<Mark>,
) -> Result<(), AllocError>
    requires unspoiled { board.now.spoiled ≡ false }
    requires comes { Has set.now (sets_asked line asking.now.coming.items) }
    ensures { OnOk result (AreMarksThen board.now.state asking.now marks.old.items → AreMarksThen board.now.state asking.now marks.new.items) }
{
    if !is_new_last(board, asking, line, set) {
        return Ok(());
    }
    mark_all(board, asking, line, set, marks)
}

fn mark_by(
    board: &Board,
    asking: &Asking,
    demand: &Demand,
    marks: &mut Vec<Mark>,
) -> Result<(), AllocError>
    requires unspoiled { board.now.spoiled ≡ false }
    requires comes { Has demand.now asking.now.coming.items }
    ensures { OnOk result (AreMarksThen board.now.state asking.now marks.old.items → AreMarksThen board.now.state asking.now marks.new.items) }
{
    match &demand.asked {
        Asked::Set(set) => mark_broken(board, asking, demand.line, set, marks),
        _ => Ok(()),
    }
}

/// Marks states that other activities need and that sets which come change.
pub(crate) fn add_broken_musts(
    board: &Board,
    asking: &Asking,
    marks: &mut Vec<Mark>,
) -> Result<(), AllocError>
    requires { board.now.spoiled ≡ false }
    ensures { OnOk result (AreMarksThen board.now.state asking.now marks.old.items → AreMarksThen board.now.state asking.now marks.new.items) }
{
    for demand in asking.coming.as_slice() {
        mark_by(board, asking, demand, marks)?;
    }
    Ok(())
}
