//! What choosers make of a board.
ghost use Rattle.std.specs.Prelude.{◌≡◌, ◌≤◌, false};

use crate::board::reading::{conflict, repair};
use crate::board::values::are_conflicts;
use crate::reading::{number, sides, word};
use pl_board::Board;
use pl_cand::{Chooser, Proposal, make};
use pl_choose::{Least, Seeded};
use std::alloc::{AllocError, Global};

/// A chooser that proposes as the least one does, and has what is provided beside that.
#[derive(Drop)]
struct Proposer;

impl Chooser for Proposer {
    ghost use Rattle.std.specs.Prelude.{◌≡◌};
    ghost use Rattle.pl_choose.specs.Picks.{least_pick};

    ghost picks = { λ before s p now. p ≡ least_pick s };

    ghost drawn = { λ before now. now ≡ before };

    fn propose(
        &mut self,
        alloc: Global,
        board: &mut Board,
    ) -> Result<Option<Proposal>, AllocError> {
        Least.propose(alloc, board)
    }
}

/// Makes the next repair of a chooser, if another of its kind proposes the same.
fn mend<C: Chooser>(
    alloc: Global,
    board: &mut Board,
    first: &mut C,
    second: &mut C,
) -> Option<Option<Proposal>>
    requires unspoiled { board.old.spoiled ≡ false }
    requires next { board.old.state.next_id ≤ 3999999000 }
{
    let Ok(proposed) = first.propose(alloc, board) else {
        return None;
    };
    let made = second.mend(alloc, board).ok()?;
    if made == proposed { Some(made) } else { None }
}

/// Makes what the least chooser proposes.
fn make_least(alloc: Global, board: &mut Board) -> Option<Option<Proposal>>
    requires unspoiled { board.old.spoiled ≡ false }
    requires next { board.old.state.next_id ≤ 3999999000 }
{
    match Least.propose(alloc, board) {
        Ok(Some(proposal)) => {
            make(alloc, board, &proposal).ok()?;
            Some(Some(proposal))
        }
        _ => None,
    }
}

/// Makes the next repair of the chooser of a word, or of a seed.
fn mended(alloc: Global, board: &mut Board, chooser: &str) -> Option<Option<Proposal>>
    requires unspoiled { board.old.spoiled ≡ false }
    requires next { board.old.state.next_id ≤ 3999999000 }
{
    let mut rest = chooser;
    match word(&mut rest) {
        "least" => mend(alloc, board, &mut Least, &mut Least),
        "own" => mend(alloc, board, &mut Proposer, &mut Proposer),
        "make" => make_least(alloc, board),
        _ => {
            let seed = u64::from(number(&mut rest));
            let (mut first, mut second) = (Seeded::new(seed), Seeded::new(seed));
            mend(alloc, board, &mut first, &mut second)
        }
    }
}

/// Whether this is the repair: its conflict and its move, where `any` stands for each move, or none.
fn is_repair(made: Option<Proposal>, wanted: &str) -> bool {
    match made {
        Some(made) => {
            let (wrong, mv) = wanted.split_once(" by ").unwrap_or((wanted, ""));
            made.conflict == conflict(wrong) && (mv == "any" || made.mv == repair(mv))
        }
        None => wanted == "none",
    }
}

/// Whether a chooser makes this repair, and what is wrong then.
pub fn is_mended(alloc: Global, board: &mut Board, row: &str) -> Option<bool> {
    let (chooser, rest) = sides(row);
    let (wanted, conflicts) = sides(rest);
    if board.spoiled() || board.next_id() > 3_999_999_000 {
        return None;
    }
    let made = mended(alloc, board, chooser)?;
    if is_repair(made, wanted) {
        are_conflicts(alloc, board, conflicts)
    } else {
        Some(false)
    }
}
