//! The limits of timelines, and what they come to.
ghost use Rattle.std.specs.Prelude.{◌≡◌, ◌<◌, ◌≤◌, ◌≤ℤ◌, false, pos, Some, slice_get};
ghost use Rattle.pl_detect.specs.Based.{HasBase};
ghost use Rattle.pl_semantics.specs.Demands.{moment_of_base, since};
ghost use Rattle.pl_semantics.specs.Whole.{IsWhole};
ghost use Rattle.pl_bounds.specs.Looks.{IsLimited};
ghost use Rattle.pl_bounds.specs.Sides.{limit_of, is_past, value_at};

use crate::outside::Side;
use pl_board::Board;
use pl_model::{Model, Timeline};
use pl_semantics::PlanState;

fn limit_in(side: Side, timeline: &Timeline) -> Option<i64>
    ensures { result ≡ limit_of side (Some timeline.now) }
{
    match (side, timeline) {
        (Side::Over, Timeline::Capacity { most, .. }) => Some(*most),
        (Side::Low, Timeline::Level { least, .. }) => Some(*least),
        (Side::High, Timeline::Level { most, .. }) => Some(*most),
        _ => None,
    }
}

/// The limit of a timeline on a side, where it has one.
pub(crate) fn limit_of(model: &Model, side: Side, line: u32) -> Option<i64>
    ensures { result ≡ limit_of side (slice_get model.now.timelines line) }
{
    match model.timelines.as_slice().get(line as usize) {
        Some(timeline) => limit_in(side, timeline),
        None => None,
    }
}

/// Whether a value is past the limit.
pub(crate) fn is_past(side: Side, limit: i64, value: i64) -> bool
    ensures { result ≡ is_past side limit value }
{
    match side {
        Side::Over => limit < value,
        Side::Low => value < limit,
        Side::High => limit < value,
    }
}

/// What a timeline comes to at a moment, on the side that is looked at.
pub(crate) fn value_at(board: &Board, side: Side, line: u32, at: u32) -> i64
    requires unspoiled { board.now.spoiled ≡ false }
    requires limited { IsLimited board.now.state side line }
    requires now { board.now.state.moment ≤ at }
    requires before_horizon { at < board.now.state.model.horizon }
    ensures { result ≡ value_at board.now.state side line at }
{
    match side {
        Side::Over => board.use_at(line, at),
        Side::Low => board.level_at(line, at),
        Side::High => board.level_at(line, at),
    }
}

fn moment_of_base(base: (i64, i64)) -> u32
    requires { base.0 ≤ℤ pos 10000000 }
    ensures { result ≡ moment_of_base (Some base) }
{
    if base.0 < 0 { 0 } else { base.0 as u32 }
}

fn since_told(s: &PlanState, line: u32) -> u32
    requires whole { IsWhole s.now }
    requires base { HasBase s.now line 1000000000000 }
    ensures { result ≡ since s.now line }
{
    moment_of_base(s.bases.get(line))
}

/// From when on effects count: of a level since its value was told.
pub(crate) fn since(s: &PlanState, side: Side, line: u32) -> u32
    requires whole { IsWhole s.now }
    requires limited { IsLimited s.now side line }
    ensures { result ≡ since s.now line }
{
    match side {
        Side::Over => 0,
        Side::Low => since_told(s, line),
        Side::High => since_told(s, line),
    }
}
