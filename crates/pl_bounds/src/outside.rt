//! Timelines past a limit of their own, or which a move may bring past it, each looked at at some moments.
ghost use Rattle.std.specs.Prelude.{◌≡◌, ◌≤◌, ℕ, Bool, false, Some, All, IfOk, OnOk, IfSome, length, slice_get};
ghost use Rattle.pl_semantics.specs.Timelines.{spans_ahead};
ghost use Rattle.pl_bounds.specs.Looks.{IsElse};
ghost use Rattle.pl_bounds.specs.Sides.{IsOutsideOf, AreDifferent, AreRight, limit_of, is_past, value_at};
ghost use Rattle.pl_bounds.specs.Tallies.{IsTallyOf};

use crate::looking::looks_at;
use crate::reading::{is_past, limit_of, since};
use crate::tally::Tally;
use pl_board::Board;
use pl_conflict::Code;
use std::alloc::{AllocError, Global};

/// Which limit of a timeline is looked at.
#[derive(Clone, Copy, PartialEq, Eq)]
pub(crate) enum Side {
    /// More of a capacity is in use than the most.
    Over,
    /// A level is below its least.
    Low,
    /// A level is above its most.
    High,
}

/// A moment, and what the timeline comes to there.
#[derive(Clone, Copy)]
pub(crate) struct Look {
    pub(crate) at: u32,
    pub(crate) value: i64,
}

/// A timeline and one of its limits, looks at it, and how often it is past the limit now at least. Effects up to the moment `since` do not
/// count. For each of `amounts` it was looked where it would come past its limit if so much were added to it.
#[derive(Drop)]
pub(crate) struct Outside {
    pub(crate) line: u32,
    pub(crate) side: Side,
    pub(crate) limit: i64,
    pub(crate) since: u32,
    pub(crate) looks: Vec<Look>,
    pub(crate) amounts: Vec<i64>,
    pub(crate) times: u32,
}

impl Outside {
    /// Whether it is a level without looks: it is not past its limit, and none of the amounts would bring it past.
    pub(crate) fn is_clear(&self) -> bool {
        self.side != Side::Over && self.looks.is_empty()
    }
}

fn side_of(code: Code) -> Option<Side> {
    match code {
        Code::Over => Some(Side::Over),
        Code::Low => Some(Side::Low),
        Code::High => Some(Side::High),
        _ => None,
    }
}

fn is_there(all: &[Outside], side: Side, line: u32) -> bool
    ensures { result ≡ false → All (IsElse side line) all.now }
{
    for outside in all {
        if outside.line == line && outside.side == side {
            return true;
        }
    }
    false
}

// How often it comes past its limit at some looks in turn, from a tally of no moment.
fn times_now(board: &Board, ahead: Tally, side: Side, limit: i64, looks: &[Look]) -> u32
    requires { (P : ℕ → Bool) → IsTallyOf P board.now.state.moment board.now.state.model.horizon ahead }
    ensures { (line : ℕ) → AreRight board.now.state side line looks.now → result ≤ length (spans_ahead board.now.state (λ t. is_past side limit (value_at board.now.state side line t))) }
{
    let _state = board.state();
    let mut tally = ahead;
    for look in looks {
        tally = tally.noted(look.at, is_past(side, limit, look.value));
    }
    tally.times
}

// The timeline with this limit, looked at around the spans in which it is past it.
fn outside_with(
    alloc: Global,
    board: &Board,
    side: Side,
    line: u32,
    limit: i64,
) -> Result<Outside, AllocError>
    requires unspoiled { board.now.spoiled ≡ false }
    requires limited { limit_of side (slice_get board.now.state.model.timelines line) ≡ Some limit }
    ensures of_plan { IfOk result (λ o. IsOutsideOf board.now.state o) }
    ensures here { IfOk result (λ o. (o.line ≡ line) × (o.side ≡ side)) }
{
    let s = board.state();
    let ahead = Tally::new(s.moment, s.model.get().horizon);
    let looks = looks_at(alloc, board, side, line)?;
    let times = times_now(board, ahead, side, limit, looks.as_slice());
    Ok(Outside {
        line,
        side,
        limit,
        since: since(s, side, line),
        looks,
        amounts: Vec::new(alloc),
        times,
    })
}

// The same, if it has a limit on this side.
fn outside_at(
    alloc: Global,
    board: &Board,
    side: Side,
    line: u32,
) -> Result<Option<Outside>, AllocError>
    requires { board.now.spoiled ≡ false }
    ensures of_plan { IfOk result (λ found. IfSome found (IsOutsideOf board.now.state)) }
    ensures here { IfOk result (λ found. IfSome found (λ o. (o.line ≡ line) × (o.side ≡ side))) }
{
    match limit_of(board.model(), side, line) {
        Some(limit) => Ok(Some(outside_with(alloc, board, side, line, limit)?)),
        None => Ok(None),
    }
}

/// Appends this side of the timeline, if it is not among them and there is a limit.
pub(crate) fn add(
    alloc: Global,
    board: &Board,
    side: Side,
    line: u32,
    all: &mut Vec<Outside>,
) -> Result<(), AllocError>
    requires unspoiled { board.now.spoiled ≡ false }
    requires of_plan { All (IsOutsideOf board.now.state) all.old.items }
    requires different { AreDifferent all.old.items }
    ensures of_plan { OnOk result (All (IsOutsideOf board.now.state) all.new.items) }
    ensures different { OnOk result (AreDifferent all.new.items) }
{
    if is_there(all.as_slice(), side, line) {
        return Ok(());
    }
    match outside_at(alloc, board, side, line)? {
        Some(outside) => {
            all.push(outside)?;
            Ok(())
        }
        None => Ok(()),
    }
}

/// Those that are past a limit now, each side of a timeline once.
pub(crate) fn outsides(alloc: Global, board: &Board) -> Result<Vec<Outside>, AllocError>
    requires { board.now.spoiled ≡ false }
    ensures of_plan { IfOk result (λ all. All (IsOutsideOf board.now.state) all.items) }
    ensures different { IfOk result (λ all. AreDifferent all.items) }
{
    let mut all = Vec::new(alloc);
    for conflict in board.conflicts().iter() {
        if let Some(side) = side_of(conflict.code) {
            add(alloc, board, side, conflict.subject, &mut all)?;
        }
    }
    Ok(all)
}
