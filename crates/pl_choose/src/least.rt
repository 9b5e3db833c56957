ghost use Rattle.std.specs.Prelude.{◌≡◌, ◌≤◌, true, false, Some, IfOk, OnErr};
ghost use Rattle.pl_cand.specs.Proposals.{IsProposal};
ghost use Rattle.pl_choose.specs.Found.{AreFirst};
ghost use Rattle.pl_choose.specs.Picked.{behind};
ghost use Rattle.pl_choose.specs.Picks.{least_pick};
ghost use Rattle.pl_choose.specs.Promising.{IsPromising};

use crate::alone::{Alone, try_alone};
use crate::fewest::fewest;
use crate::picked::Picked;
use crate::promising::promising;
use crate::purpose::{Purpose, enough_for};
use crate::remembering::{recalled, remember_found, remember_made};
use crate::repairs::Repairs;
use crate::search::first_repairs;
use pl_board::Board;
use pl_cand::{Chooser, Proposal, make};
use pl_moves::least_left;
use std::alloc::{AllocError, Global};

/// Takes the first conflict that has a legal candidate, and of these the one that leaves the fewest conflicts, the first among
/// equals.
#[derive(Clone, Copy, Drop)]
pub struct Least;

/// Answers the proposal, and makes its move if that is the purpose.
pub(crate) fn make_if_mending(
    alloc: Global,
    board: &mut Board,
    proposal: Proposal,
    purpose: Purpose,
) -> Result<Option<Proposal>, AllocError>
    requires unspoiled { board.old.spoiled ≡ false }
    requires next_id { board.old.state.next_id ≤ 3999999000 }
    requires legal { IsProposal board.old.state (Some proposal) }
    ensures told { IfOk result (λ p. p ≡ Some proposal) }
    ensures board { IfOk result (λ p. board.new ≡ behind purpose p board.old) }
    ensures err { OnErr result (board.new.spoiled ≡ true) }
{
    match purpose {
        Purpose::Propose => Ok(Some(proposal)),
        Purpose::Mend => {
            make(alloc, board, &proposal)?;
            Ok(Some(proposal))
        }
    }
}

// The best of the legal candidates of the first conflict that has one. They are tried, and the board remembers which one it is.
fn choose_by_trials(
    alloc: Global,
    board: &mut Board,
    repairs: &Repairs,
    purpose: Purpose,
) -> Result<Option<Proposal>, AllocError>
    requires unspoiled { board.old.spoiled ≡ false }
    requires next_id { board.old.state.next_id ≤ 3999999000 }
    requires first { AreFirst board.old.state (Some repairs.now) }
    ensures picks { IfOk result (λ p. p ≡ least_pick board.old.state) }
    ensures board { IfOk result (λ p. board.new ≡ behind purpose p board.old) }
    ensures err { OnErr result (board.new.spoiled ≡ true) }
{
    let conflict = repairs.conflict;
    let moves = repairs.moves.as_slice();
    match fewest(alloc, board, moves, purpose)? {
        Some(Picked::Made(mv, told)) => {
            remember_made(board, moves, &mv, told);
            Ok(Some(Proposal { conflict, mv }))
        }
        Some(Picked::Found(mv)) => {
            remember_found(board, moves, &mv);
            make_if_mending(alloc, board, Proposal { conflict, mv }, purpose)
        }
        None => Ok(None),
    }
}

/// The best of the legal candidates of the first conflict that has one: the board may remember it, and else they are tried.
pub(crate) fn choose_fewest(
    alloc: Global,
    board: &mut Board,
    repairs: &Repairs,
    purpose: Purpose,
) -> Result<Option<Proposal>, AllocError>
    requires unspoiled { board.old.spoiled ≡ false }
    requires next_id { board.old.state.next_id ≤ 3999999000 }
    requires first { AreFirst board.old.state (Some repairs.now) }
    ensures picks { IfOk result (λ p. p ≡ least_pick board.old.state) }
    ensures board { IfOk result (λ p. board.new ≡ behind purpose p board.old) }
    ensures err { OnErr result (board.new.spoiled ≡ true) }
{
    let conflict = repairs.conflict;
    match recalled(board, repairs.moves.as_slice()) {
        Some(mv) => make_if_mending(alloc, board, Proposal { conflict, mv }, purpose),
        None => choose_by_trials(alloc, board, repairs, purpose),
    }
}

// Lists the legal candidates of the first conflict that has one, and chooses the best of them.
fn choose_among(
    alloc: Global,
    board: &mut Board,
    purpose: Purpose,
) -> Result<Option<Proposal>, AllocError>
    requires unspoiled { board.old.spoiled ≡ false }
    requires next_id { board.old.state.next_id ≤ 3999999000 }
    ensures picks { IfOk result (λ p. p ≡ least_pick board.old.state) }
    ensures board { IfOk result (λ p. board.new ≡ behind purpose p board.old) }
    ensures err { OnErr result (board.new.spoiled ≡ true) }
{
    match first_repairs(alloc, board) {
        Ok(Some(repairs)) => choose_fewest(alloc, board, &repairs, purpose),
        Ok(None) => Ok(None),
        Err(fault) => {
            board.spoil();
            Err(fault)
        }
    }
}

// What is chosen after the promising move was tried and undone: this move if it is known to be the best, else the best of all legal
// candidates.
fn choose_behind(
    alloc: Global,
    board: &mut Board,
    proposal: Proposal,
    purpose: Purpose,
    is_best: bool,
) -> Result<Option<Proposal>, AllocError>
    requires unspoiled { board.old.spoiled ≡ false }
    requires next_id { board.old.state.next_id ≤ 3999999000 }
    requires best { is_best ≡ true → Some proposal ≡ least_pick board.old.state }
    ensures picks { IfOk result (λ p. p ≡ least_pick board.old.state) }
    ensures board { IfOk result (λ p. board.new ≡ behind purpose p board.old) }
    ensures err { OnErr result (board.new.spoiled ≡ true) }
{
    if is_best {
        make_if_mending(alloc, board, proposal, purpose)
    } else {
        choose_among(alloc, board, purpose)
    }
}

// Tries a promising move. It is chosen if it leaves no more conflicts than each legal candidate is known to leave at least.
fn choose_promising(
    alloc: Global,
    board: &mut Board,
    proposal: Proposal,
    purpose: Purpose,
) -> Result<Option<Proposal>, AllocError>
    requires unspoiled { board.old.spoiled ≡ false }
    requires next_id { board.old.state.next_id ≤ 3999999000 }
    requires promising { IsPromising board.old.state proposal }
    ensures picks { IfOk result (λ p. p ≡ least_pick board.old.state) }
    ensures board { IfOk result (λ p. board.new ≡ behind purpose p board.old) }
    ensures err { OnErr result (board.new.spoiled ≡ true) }
{
    let least = least_left(board.state(), &proposal.mv);
    match try_alone(alloc, board, &proposal.mv, enough_for(purpose, Some(least)))? {
        Alone::Made(_told) => Ok(Some(proposal)),
        Alone::Undone { left } => {
            choose_behind(alloc, board, proposal, purpose, left <= least as usize)
        }
    }
}

/// A proposal by the rule of [`Least`].
pub(crate) fn choose_least(
    alloc: Global,
    board: &mut Board,
    purpose: Purpose,
) -> Result<Option<Proposal>, AllocError>
    requires unspoiled { board.old.spoiled ≡ false }
    requires next_id { board.old.state.next_id ≤ 3999999000 }
    ensures picks { IfOk result (λ p. p ≡ least_pick board.old.state) }
    ensures board { IfOk result (λ p. board.new ≡ behind purpose p board.old) }
    ensures err { OnErr result (board.new.spoiled ≡ true) }
{
    match promising(board) {
        Some(proposal) => choose_promising(alloc, board, proposal, purpose),
        None => choose_among(alloc, board, purpose),
    }
}

impl Chooser for Least {
    ghost use Rattle.std.specs.Prelude.{◌≡◌};
    ghost use Rattle.pl_choose.specs.Picks.{least_pick};

    ghost picks = { λ before s p now. p ≡ least_pick s };

    ghost drawn = { λ before now. now ≡ before };

    fn propose(
        &mut self,
        alloc: Global,
        board: &mut Board,
    ) -> Result<Option<Proposal>, AllocError> {
        choose_least(alloc, board, Purpose::Propose)
    }

    fn mend(&mut self, alloc: Global, board: &mut Board) -> Result<Option<Proposal>, AllocError> {
        choose_least(alloc, board, Purpose::Mend)
    }
}
