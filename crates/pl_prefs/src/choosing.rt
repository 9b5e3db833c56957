//! The choice among moves by what they gain.
ghost use Rattle.std.specs.Prelude.{◌≡◌, ◌≤◌, ◌<◌, ◌+◌, length, false, true, IfOk, OnErr, Some, slice_get};
ghost use Rattle.pl_prefs.specs.Betters.{AreProperChanges};
ghost use Rattle.pl_prefs.specs.Chances.{IsMostAt, IsGreatest, AreGains, IsChosen};
ghost use Rattle.pl_prefs.specs.Tries.{IsTried};

use crate::choice::Choice;
use crate::prefer::Prefer;
use crate::trying::is_made;
use pl_board::Board;
use pl_plan::RepairMove;
use pl_points::{Ledger, Steps};
use std::alloc::{AllocError, Global};

// The place of the greatest of one number more.
fn foremost(gains: &[i128], place: usize, number: usize) -> usize
    requires within { number < length gains.now }
    requires most { IsMostAt gains.now number place }
    ensures { IsMostAt gains.now (number + 1) result }
{
    if gains[place] < gains[number] {
        number
    } else {
        place
    }
}

// The place of the greatest number above 0, the first among equals.
fn greatest(gains: &[i128]) -> Option<usize>
    ensures { IsGreatest gains.now result }
{
    let mut place: usize = 0;
    for number in 0..gains.len() {
        place = foremost(gains, place, number);
    }
    if gains.is_empty() {
        return None;
    }
    if 0 < gains[place] { Some(place) } else { None }
}

/// Tries moves by falling gain, the first among equals first, and makes the first that is clear. A move whose number is not above 0
/// is not tried.
pub(crate) fn best_made<L: Ledger>(
    alloc: Global,
    board: &mut Board,
    prefers: &[Prefer],
    moves: &[RepairMove],
    gains: &mut [i128],
    steps: &mut Steps<L>,
) -> Result<Option<Choice>, AllocError>
    requires unspoiled { board.old.spoiled ≡ false }
    requires next { board.old.state.next_id ≤ 3999999000 }
    requires changes { AreProperChanges board.old.state moves.now }
    requires gains { AreGains board.old.state prefers.now moves.now gains.old }
    ensures chosen { IfOk result (λ choice. IsChosen prefers.now moves.now choice board.old board.new) }
    ensures err { OnErr result (board.new.spoiled ≡ true) }
{
    'turns: while let Some(place) = greatest(gains) {
        let gain = gains[place];
        let mv = moves[place];
        let made = is_made(alloc, board, &mv, steps)?;
        if made {
            return Ok(Some(Choice { mv, gain }));
        }
        gains[place] = 0;
    }
    Ok(None)
}
