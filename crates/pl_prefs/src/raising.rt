//! A score that goes on by what was gained.
ghost use Rattle.std.specs.Prelude.{◌≡◌, ◌≤◌, ◌+ℤ◌, false, length, All};
ghost use Rattle.pl_prefs.specs.Prefers.{IsPreferOf};
ghost use Rattle.pl_prefs.specs.Scores.{score};

use crate::prefer::Prefer;
use crate::scores::score;
use pl_board::Board;

/// The score once so much is gained. Where the sum would not fit the type it is worked out anew.
pub(crate) fn raised(board: &Board, prefers: &[Prefer], before: i128, gain: i128) -> i128
    requires unspoiled { board.now.spoiled ≡ false }
    requires fits { All (IsPreferOf board.now.state.model) prefers.now }
    requires few { length prefers.now ≤ 64 }
    requires sum { before +ℤ gain ≡ score board.now.state prefers.now }
    ensures { result ≡ score board.now.state prefers.now }
{
    match before.checked_add(gain) {
        Some(sum) => sum,
        None => score(board, prefers),
    }
}
