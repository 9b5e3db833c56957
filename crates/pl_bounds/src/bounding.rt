//! How often timelines are past their limits at least, once some demands went and others came.
ghost use Rattle.std.specs.Prelude.{◌≡◌, ◌≤◌, ℕ, Bool, List, [], false, All, IfSome, IsTrue, length};
ghost use Rattle.pl_update.specs.Changes.Replaced.{CanReplace, with_plan};
ghost use Rattle.pl_update.specs.Timelines.Laws.{AreOnce};
ghost use Rattle.pl_plan.specs.declared.activity.Activity.{Activity};
ghost use Rattle.pl_semantics.specs.declared.plan_state.PlanState.{PlanState};
ghost use Rattle.pl_semantics.specs.Timelines.{spans_ahead};
ghost use Rattle.pl_bounds.specs.Afterwards.{coming_at, is_past_with};
ghost use Rattle.pl_bounds.specs.Asked.{IsAskedBy};
ghost use Rattle.pl_bounds.specs.Changed.{IsAddedBy, IsWalkOf};
ghost use Rattle.pl_bounds.specs.declared.stepwise.Step as taken;
ghost use Rattle.pl_bounds.specs.declared.stepwise.Way as ways;
ghost use Rattle.pl_bounds.specs.Sides.{IsOutsideOf, times_past, value_at};
ghost use Rattle.pl_bounds.specs.Steps.{is_past_by, IsAdditionOf};
ghost use Rattle.pl_bounds.specs.Tallies.{fresh, IsTallyOf};

use crate::added::{Added, Change, added_at};
use crate::asking::Asking;
use crate::outside::{Look, Outside, Side};
use crate::reading::{is_past, value_at};
use crate::sorting::Addition;
use crate::stepwise::Way;
use crate::tally::Tally;
use crate::worse::{may_be_past, worse_within};
use pl_board::Board;

// The tally with whether the timeline is past its limit at a look, if that is known.
fn looked_at(tally: Tally, outside: &Outside, added: Added, look: Look) -> Tally
    ensures { (s : PlanState) (from end : ℕ) (w : ways.Way) (steps : List taken.Step) → look.value ≡ value_at s outside.now.side outside.now.line look.at
        → IsAddedBy outside.now w steps added
        → IsTallyOf (is_past_by s outside.now w steps) from end tally
        → IsTallyOf (is_past_by s outside.now w steps) from end result }
{
    match added.value_with(look) {
        Some(value) => tally.noted(look.at, is_past(outside.side, outside.limit, value)),
        None => tally,
    }
}

// The tally with one look more, before this moment, if what comes makes the timeline worse at one there. If the timeline is past its limit
// already, that would tell nothing new.
fn looked_before(
    board: &Board,
    tally: Tally,
    outside: &Outside,
    change: &Change<'_>,
    to: u32,
) -> Tally
    requires unspoiled { board.now.spoiled ≡ false }
    requires of_plan { IsOutsideOf board.now.state outside.now }
    requires tally { IsTallyOf (is_past_by board.now.state outside.now change.now.way change.now.steps.now) board.now.state.moment board.now.state.model.horizon tally }
    ensures { IsTallyOf (is_past_by board.now.state outside.now change.now.way change.now.steps.now) board.now.state.moment board.now.state.model.horizon result }
{
    let end = to.min(tally.end);
    if tally.before || end <= tally.next {
        return tally;
    }
    match worse_within(outside, change, tally.next, end) {
        Some(at) => {
            let value = value_at(board, outside.side, outside.line, at);
            let added = added_at(outside, change, at);
            looked_at(tally, outside, added, Look { at, value })
        }
        None => tally,
    }
}

// The tally of the looks so far, what was last found to be added, and what the timeline came to at the last look.
#[derive(Clone, Copy)]
struct Walk {
    tally: Tally,
    added: Added,
    last: Option<i64>,
}

// The tally with one more look between the last one and this moment, if the timeline may be past its limit there.
fn looked_between(
    board: &Board,
    walk: &Walk,
    outside: &Outside,
    change: &Change<'_>,
    added: Added,
    to: u32,
) -> Tally
    requires unspoiled { board.now.spoiled ≡ false }
    requires of_plan { IsOutsideOf board.now.state outside.now }
    requires tally { IsTallyOf (is_past_by board.now.state outside.now change.now.way change.now.steps.now) board.now.state.moment board.now.state.model.horizon walk.now.tally }
    ensures { IsTallyOf (is_past_by board.now.state outside.now change.now.way change.now.steps.now) board.now.state.moment board.now.state.model.horizon result }
{
    if may_be_past(outside, walk.last, added) {
        looked_before(board, walk.tally, outside, change, to)
    } else {
        walk.tally
    }
}

// Goes on to a look at which as much is added as before.
fn gone_on(walk: &mut Walk, outside: &Outside, look: Look)
    ensures { (s : PlanState) (w : ways.Way) (steps : List taken.Step) → look.value ≡ value_at s outside.now.side outside.now.line look.at
        → IsWalkOf s outside.now w steps walk.old → IsWalkOf s outside.now w steps walk.new }
{
    walk.tally = looked_at(walk.tally, outside, walk.added, look);
    walk.last = Some(look.value);
}

// Goes on to a look at which it has to be worked out how much is added.
fn gone_anew(board: &Board, walk: &mut Walk, outside: &Outside, change: &Change<'_>, look: Look)
    requires unspoiled { board.now.spoiled ≡ false }
    requires of_plan { IsOutsideOf board.now.state outside.now }
    requires tally { IsTallyOf (is_past_by board.now.state outside.now change.now.way change.now.steps.now) board.now.state.moment board.now.state.model.horizon walk.old.tally }
    requires right { look.value ≡ value_at board.now.state outside.now.side outside.now.line look.at }
    ensures { IsWalkOf board.now.state outside.now change.now.way change.now.steps.now walk.new }
{
    let added = added_at(outside, change, look.at);
    let before = looked_between(board, walk, outside, change, added, look.at);
    walk.tally = looked_at(before, outside, added, look);
    walk.added = added;
    walk.last = Some(look.value);
}

// Notes a look. If as much is added there as at the look before, the moments between need no look.
fn gone_to(board: &Board, walk: &mut Walk, outside: &Outside, change: &Change<'_>, look: Look)
    requires unspoiled { board.now.spoiled ≡ false }
    requires of_plan { IsOutsideOf board.now.state outside.now }
    requires walk { IsWalkOf board.now.state outside.now change.now.way change.now.steps.now walk.old }
    requires right { look.value ≡ value_at board.now.state outside.now.side outside.now.line look.at }
    ensures { IsWalkOf board.now.state outside.now change.now.way change.now.steps.now walk.new }
{
    if walk.added.is_known_at(look.at) {
        gone_on(walk, outside, look)
    } else {
        gone_anew(board, walk, outside, change, look)
    }
}

// Whether as much is added up to the end.
fn is_steady(walk: Walk) -> bool {
    u64::from(walk.tally.end) <= walk.added.until
}

// Whether the timeline may be past its limit after the last look.
fn may_be_past_behind(walk: Walk, outside: &Outside, change: &Change<'_>) -> bool {
    if outside.side == Side::Over {
        return true;
    }
    let last = walk.tally.end.saturating_sub(1);
    may_be_past(outside, walk.last, added_at(outside, change, last))
}

// How often at least the timeline is past its limit, once all looks are noted. If as much is added up to the end, the rest needs no look.
fn times_behind(board: &Board, walk: Walk, outside: &Outside, change: &Change<'_>) -> u32
    requires unspoiled { board.now.spoiled ≡ false }
    requires of_plan { IsOutsideOf board.now.state outside.now }
    requires walk { IsWalkOf board.now.state outside.now change.now.way change.now.steps.now walk }
    ensures { result ≤ length (spans_ahead board.now.state (is_past_by board.now.state outside.now change.now.way change.now.steps.now)) }
{
    if is_steady(walk) || !may_be_past_behind(walk, outside, change) {
        walk.tally.times
    } else {
        looked_before(board, walk.tally, outside, change, walk.tally.end).times
    }
}

// How often at least one timeline is past its limit, from a tally of no moment.
fn times_of(board: &Board, ahead: Tally, outside: &Outside, change: &Change<'_>) -> u32
    requires unspoiled { board.now.spoiled ≡ false }
    requires of_plan { IsOutsideOf board.now.state outside.now }
    requires ahead { (P : ℕ → Bool) → IsTallyOf P board.now.state.moment board.now.state.model.horizon ahead }
    ensures { result ≤ length (spans_ahead board.now.state (is_past_by board.now.state outside.now change.now.way change.now.steps.now)) }
{
    let mut walk = Walk {
        tally: ahead,
        added: Added::unknown(),
        last: None,
    };
    let looks = outside.looks.as_slice();
    for look in looks {
        gone_to(board, &mut walk, outside, change, *look);
    }
    times_behind(board, walk, outside, change)
}

// Whether the move leaves the timeline as it is.
fn is_nothing(change: &Change<'_>) -> bool
    ensures { IsTrue result → change.now.steps.now ≡ [] }
{
    change.steps.is_empty()
}

// The same. If nothing is added to this timeline, it is past its limit as often as it is now.
fn times_by(board: &Board, ahead: Tally, outside: &Outside, change: &Change<'_>) -> u32
    requires unspoiled { board.now.spoiled ≡ false }
    requires of_plan { IsOutsideOf board.now.state outside.now }
    requires ahead { (P : ℕ → Bool) → IsTallyOf P board.now.state.moment board.now.state.model.horizon ahead }
    ensures { result ≤ length (spans_ahead board.now.state (is_past_by board.now.state outside.now change.now.way change.now.steps.now)) }
{
    if is_nothing(change) {
        outside.times
    } else {
        times_of(board, ahead, outside, change)
    }
}

// Whether this is what the move adds at this limit, and the timeline has looks if it is a level. A level without looks is taken to be
// nowhere past its limit.
fn is_looked_at(outside: &Outside, addition: &Addition) -> bool
    ensures line { IsTrue result → outside.now.line ≡ addition.now.line }
    ensures side { IsTrue result → outside.now.side ≡ addition.now.side }
{
    !outside.is_clear() && addition.is_of(outside)
}

// The same once what goes is gone, and what comes stands at this start.
fn times_with(
    board: &Board,
    ahead: Tally,
    outside: &Outside,
    asking: &Asking,
    addition: &Addition,
    start: u32,
) -> u32
    requires unspoiled { board.now.spoiled ≡ false }
    requires of_plan { IsOutsideOf board.now.state outside.now }
    requires ahead { (P : ℕ → Bool) → IsTallyOf P board.now.state.moment board.now.state.model.horizon ahead }
    requires addition { IsAdditionOf asking.now addition.now }
    ensures { result ≤ length (spans_ahead board.now.state (is_past_with board.now.state outside.now asking.now.going.items (coming_at asking.now start))) }
{
    if is_looked_at(outside, addition) {
        let change = Change {
            steps: addition.steps.as_slice(),
            way: Way {
                from: asking.start,
                to: start,
            },
        };
        times_by(board, ahead, outside, &change)
    } else {
        0
    }
}

// The same, if it is known what the move adds at this limit.
fn times_at(
    board: &Board,
    ahead: Tally,
    outside: &Outside,
    asking: &Asking,
    addition: Option<&Addition>,
    start: u32,
) -> u32
    requires unspoiled { board.now.spoiled ≡ false }
    requires of_plan { IsOutsideOf board.now.state outside.now }
    requires ahead { (P : ℕ → Bool) → IsTallyOf P board.now.state.moment board.now.state.model.horizon ahead }
    requires addition { IfSome addition (λ x. IsAdditionOf asking.now x.now) }
    ensures { result ≤ length (spans_ahead board.now.state (is_past_with board.now.state outside.now asking.now.going.items (coming_at asking.now start))) }
{
    match addition {
        Some(addition) => times_with(board, ahead, outside, asking, addition, start),
        None => 0,
    }
}

/// How often at least the timelines are past their limits once what goes is gone, and what comes stands at this start. `additions` is what
/// the move adds at each of the limits. Limits that stand behind these are not counted.
pub(crate) fn past_after(
    board: &Board,
    outsides: &[Outside],
    asking: &Asking,
    additions: &[Addition],
    start: u32,
) -> u32
    requires unspoiled { board.now.spoiled ≡ false }
    requires of_plan { All (IsOutsideOf board.now.state) outsides.now }
    requires additions { All (IsAdditionOf asking.now) additions.now }
    ensures { (gone : List ℕ) (more : List Activity) → CanReplace board.now.state gone more → AreOnce gone
        → IsAskedBy board.now.state gone more asking.now start → result ≤ times_past (with_plan gone more board.now.state) outsides.now }
{
    let s = board.state();
    let ahead = Tally::new(s.moment, s.model.get().horizon);
    let mut times: u32 = 0;
    for (place, outside) in outsides.iter().enumerate() {
        let addition = additions.get(place);
        times = times.saturating_add(times_at(board, ahead, outside, asking, addition, start));
    }
    times
}
