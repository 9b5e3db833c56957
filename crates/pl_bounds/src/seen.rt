//! The state of a timeline at a moment ahead, and on which demands it does not hang.
ghost use Rattle.std.specs.Prelude.{◌≡◌, ◌≢◌, ◌≤◌, ◌∷◌, [], false, IfSome, IsTrue, Some, slice_get};
ghost use Rattle.pl_detect.specs.Based.{IsStateLine};
ghost use Rattle.pl_semantics.specs.Demands.{state_at};
ghost use Rattle.pl_state.specs.Keys.{key_before};
ghost use Rattle.pl_state.specs.Sets.{set_key};
ghost use Rattle.pl_bounds.specs.Seen.{EachSet, IsNotBehind, IsOtherBefore, IsSeen};
ghost use Rattle.pl_bounds.specs.Settings.{HangsOnNone};

use pl_board::Board;
use pl_model::{Model, Timeline};
use pl_semantics::{Asked, Demand};
use pl_state::Setting;

/// A moment ahead, and the state that a timeline has there.
#[derive(Clone, Copy)]
pub(crate) struct Seen {
    pub(crate) line: u32,
    pub(crate) at: u32,
    pub(crate) state: u32,
}

fn is_states(timeline: &Timeline) -> bool
    ensures { IsTrue result → IsStateLine (Some timeline.now) }
{
    matches!(timeline, Timeline::States { .. })
}

fn is_state_line(model: &Model, line: u32) -> bool
    ensures { IsTrue result → IsStateLine (slice_get model.now.timelines line) }
{
    match model.timelines.as_slice().get(line as usize) {
        Some(timeline) => is_states(timeline),
        None => false,
    }
}

/// What state a timeline has at a moment, if that lies ahead.
pub(crate) fn seen_at(board: &Board, line: u32, at: u32) -> Option<Seen>
    requires { board.now.spoiled ≡ false }
    ensures seen { IfSome result (λ u. IsSeen board.now.state u) }
    ensures line { IfSome result (λ u. u.line ≡ line) }
    ensures at { IfSome result (λ u. u.at ≡ at) }
{
    let is_ahead = board.now() <= at && at < board.model().horizon;
    if !is_ahead || !is_state_line(board.model(), line) {
        return None;
    }
    let state = board.state_at(line, at);
    Some(Seen { line, at, state })
}

/// Whether a moment is later than the one that was seen, or the timeline has another state there. Of the past nothing is known.
pub(crate) fn differs_at(board: &Board, seen: &Seen, at: u32) -> bool
    requires unspoiled { board.now.spoiled ≡ false }
    requires seen { IsSeen board.now.state seen.now }
    ensures { IsTrue result → at ≤ seen.now.at → state_at board.now.state seen.now.line at ≢ state_at board.now.state seen.now.line seen.now.at }
{
    if seen.at < at {
        return true;
    }
    board.now() <= at && board.state_at(seen.line, at) != seen.state
}

// Whether the state does not hang on a set that is asked for.
fn is_free_of(board: &Board, demand: &Demand, seen: &Seen) -> bool
    requires unspoiled { board.now.spoiled ≡ false }
    requires seen { IsSeen board.now.state seen.now }
    ensures { IsTrue result → HangsOnNone board.now.state seen.now.line seen.now.at (demand.now ∷ []) }
{
    if demand.line != seen.line {
        return true;
    }
    match demand.asked {
        Asked::Set(set) => differs_at(board, seen, set.at),
        _ => true,
    }
}

/// Whether the state hangs on none of the sets that are asked for.
pub(crate) fn hangs_on_none(board: &Board, demands: &[Demand], seen: &Seen) -> bool
    requires unspoiled { board.now.spoiled ≡ false }
    requires seen { IsSeen board.now.state seen.now }
    ensures { IsTrue result → HangsOnNone board.now.state seen.now.line seen.now.at demands.now }
{
    for demand in demands {
        if !is_free_of(board, demand, seen) {
            return false;
        }
    }
    true
}

/// Whether the one stands before the other.
pub(crate) fn is_before(one: &Setting, other: &Setting) -> bool
    ensures { result ≡ key_before (set_key one.now) (set_key other.now) }
{
    one.at < other.at
        || (one.at == other.at
            && (one.id < other.id || (one.id == other.id && one.index < other.index)))
}

// Whether the state does not hang on a set that is asked for, if that stands before this one.
fn is_free_before(board: &Board, demand: &Demand, seen: &Seen, set: &Setting) -> bool
    requires unspoiled { board.now.spoiled ≡ false }
    requires seen { IsSeen board.now.state seen.now }
    requires at { seen.now.at ≡ set.now.at }
    ensures { IsTrue result → EachSet seen.now.line (IsOtherBefore board.now.state seen.now set.now) (demand.now ∷ []) }
{
    if demand.line != seen.line {
        return true;
    }
    match demand.asked {
        Asked::Set(other) => !is_before(&other, set) || differs_at(board, seen, other.at),
        _ => true,
    }
}

/// Whether the state hangs on none of the sets that are asked for and stand before this one.
pub(crate) fn hangs_on_none_before(
    board: &Board,
    demands: &[Demand],
    seen: &Seen,
    set: &Setting,
) -> bool
    requires unspoiled { board.now.spoiled ≡ false }
    requires seen { IsSeen board.now.state seen.now }
    requires at { seen.now.at ≡ set.now.at }
    ensures { IsTrue result → EachSet seen.now.line (IsOtherBefore board.now.state seen.now set.now) demands.now }
{
    for demand in demands {
        if !is_free_before(board, demand, seen, set) {
            return false;
        }
    }
    true
}

// Whether what is asked for does not stand behind the set at its moment or before.
fn is_not_behind(demand: &Demand, line: u32, set: &Setting) -> bool
    ensures { IsTrue result → EachSet line (IsNotBehind set.now) (demand.now ∷ []) }
{
    if demand.line != line {
        return true;
    }
    match demand.asked {
        Asked::Set(other) => set.at < other.at || !is_before(set, &other),
        _ => true,
    }
}

/// Whether none of the sets that are asked for stands behind this one at its moment.
pub(crate) fn is_last(demands: &[Demand], line: u32, set: &Setting) -> bool
    ensures { IsTrue result → EachSet line (IsNotBehind set.now) demands.now }
{
    for demand in demands {
        if !is_not_behind(demand, line, set) {
            return false;
        }
    }
    true
}
