//! The moments at which a level comes past a bar, and at which it comes back. A bar is a limit less the amount that a move adds to the
//! level: with this amount added the level is past its limit where it is past the bar now.
ghost use Rattle.std.specs.Prelude.{◌≡◌, ◌≤◌, false, pos, ◌+ℤ◌, ◌-ℤ◌};
ghost use Rattle.pl_points.specs.Sums.{IsSmall};
ghost use Rattle.pl_bounds.specs.Looks.{IsLimited};

use crate::outside::Side;
use pl_board::Board;

// No level comes this far from 0.
const FAR: i64 = 1000000000000000;

// The bar, or the nearest number for which `level_until` may be asked.
fn within_reach(bar: i64) -> i64
    ensures small { IsSmall result }
    ensures less { IsSmall (result -ℤ pos 1) }
    ensures more { IsSmall (result +ℤ pos 1) }
{
    bar.max(1 - FAR).min(FAR - 1)
}

/// The first moment from `from` on and before `end` at which a level is past a bar, or else `end`. For a capacity it is always `end`.
pub(crate) fn first_past(board: &Board, side: Side, line: u32, bar: i64, from: u32, end: u32) -> u32
    requires unspoiled { board.now.spoiled ≡ false }
    requires limited { IsLimited board.now.state side line }
    requires now { board.now.state.moment ≤ from }
    requires order { from ≤ end }
    requires within { end ≤ board.now.state.model.horizon }
    ensures low { from ≤ result }
    ensures high { result ≤ end }
{
    let bar = within_reach(bar);
    match side {
        Side::Over => end,
        Side::Low => board.level_until(line, from, end, bar, FAR),
        Side::High => board.level_until(line, from, end, -FAR, bar),
    }
}

/// The first moment from `from` on and before `end` at which a level is not past a bar, or else `end`. For a capacity it is always `end`.
pub(crate) fn first_back(board: &Board, side: Side, line: u32, bar: i64, from: u32, end: u32) -> u32
    requires unspoiled { board.now.spoiled ≡ false }
    requires limited { IsLimited board.now.state side line }
    requires now { board.now.state.moment ≤ from }
    requires order { from ≤ end }
    requires within { end ≤ board.now.state.model.horizon }
    ensures low { from ≤ result }
    ensures high { result ≤ end }
{
    let bar = within_reach(bar);
    match side {
        Side::Over => end,
        Side::Low => board.level_until(line, from, end, -FAR, bar - 1),
        Side::High => board.level_until(line, from, end, bar + 1, FAR),
    }
}
