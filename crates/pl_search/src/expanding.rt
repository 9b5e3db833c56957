//! The plans that one more repair makes of a plan.
ghost use Rattle.std.specs.Prelude.{◌≡◌, All, IfOk, OnOk, false};
ghost use Rattle.pl_search.specs.Undos.{MayBeMade};

use crate::branching::{GivingUp, spares, to_mend};
use crate::look::Look;
use crate::node::Step;
use crate::tries::Tries;
use crate::undo::{make_for_now, may_be_made, take_back};
use pl_board::Board;
use pl_cand::{Proposal, candidates};
use pl_conflict::Conflict;
use pl_plan::RepairMove;
use std::alloc::AllocError;

/// A plan that is to be expanded.
#[derive(Clone, Copy)]
pub(crate) struct Branch {
    /// Its place in its layer.
    pub(crate) from: usize,
    pub(crate) look: Look,
    /// Of how many conflicts the repairs are tried.
    pub(crate) conflicts: u32,
    pub(crate) giving_up: GivingUp,
}

impl Branch {
    // The step of a repair, with what was seen before it.
    fn step(&self, conflict: &Conflict, mv: &RepairMove) -> Step
        ensures { result.repair.mv ≡ mv.now }
    {
        Step {
            from: self.from,
            repair: Proposal {
                conflict: *conflict,
                mv: *mv,
            },
            look: self.look,
        }
    }
}

impl Tries {
    // Notes what a move for a conflict leads to, if it may be made. Answers whether it may.
    fn note_move(
        &mut self,
        board: &Board,
        branch: &Branch,
        conflict: &Conflict,
        mv: &RepairMove,
        fresh: &mut Vec<RepairMove>,
    ) -> Result<bool, AllocError>
        requires unspoiled { board.now.spoiled ≡ false }
        requires others { All (MayBeMade board.now.state) fresh.old.items }
        ensures { OnOk result (All (MayBeMade board.now.state) fresh.new.items) }
    {
        if !spares(board, mv, branch.giving_up) {
            return Ok(false);
        }
        if !may_be_made(board, mv) {
            return Ok(false);
        }
        self.note_repair(board, branch.step(conflict, mv), fresh)?;
        Ok(true)
    }

    // Notes what the moves for a conflict lead to. Answers how many of them may be made.
    fn note_moves(
        &mut self,
        board: &Board,
        branch: &Branch,
        conflict: &Conflict,
        moves: &[RepairMove],
        fresh: &mut Vec<RepairMove>,
    ) -> Result<u32, AllocError>
        requires unspoiled { board.now.spoiled ≡ false }
        requires others { All (MayBeMade board.now.state) fresh.old.items }
        ensures { OnOk result (All (MayBeMade board.now.state) fresh.new.items) }
    {
        let mut count: u32 = 0;
        for mv in moves {
            if self.note_move(board, branch, conflict, mv, fresh)? {
                count = count.saturating_add(1);
            }
        }
        Ok(count)
    }

    /// Tries these moves for a conflict. Answers how many of them may be made.
    pub(crate) fn try_moves(
        &mut self,
        board: &mut Board,
        branch: &Branch,
        conflict: &Conflict,
        moves: &[RepairMove],
    ) -> Result<u32, AllocError>
        requires { board.old.spoiled ≡ false }
        ensures { OnOk result (board.new ≡ board.old) }
    {
        let mut fresh = Vec::new(self.alloc);
        let count = self.note_moves(board, branch, conflict, moves, &mut fresh)?;
        self.look_at_each(board, fresh.as_slice())?;
        Ok(count)
    }

    // Tries the repairs of a conflict. Answers how many there are.
    fn try_conflict(
        &mut self,
        board: &mut Board,
        branch: &Branch,
        conflict: &Conflict,
    ) -> Result<u32, AllocError>
        requires { board.old.spoiled ≡ false }
        ensures { OnOk result (board.new ≡ board.old) }
    {
        let moves = candidates(self.alloc, board, conflict)?;
        self.try_moves(board, branch, conflict, moves.as_slice())
    }

    /// Tries the repairs of the first of these conflicts that have any.
    pub(crate) fn try_conflicts(
        &mut self,
        board: &mut Board,
        branch: &Branch,
        conflicts: &[Conflict],
    ) -> Result<(), AllocError>
        requires { board.old.spoiled ≡ false }
        ensures { OnOk result (board.new ≡ board.old) }
    {
        let mut mended: u32 = 0;
        for conflict in conflicts {
            if mended >= branch.conflicts {
                return Ok(());
            }
            let count = self.try_conflict(board, branch, conflict)?;
            mended = mended.saturating_add(count.min(1));
        }
        Ok(())
    }

    // Tries the repairs of the plan on the board.
    fn expand_here(&mut self, board: &mut Board, branch: &Branch) -> Result<(), AllocError>
        requires { board.old.spoiled ≡ false }
        ensures { OnOk result (board.new ≡ board.old) }
    {
        let conflicts = to_mend(self.alloc, board.conflicts())?;
        self.try_conflicts(board, branch, conflicts.as_slice())
    }

    /// Tries the repairs of the plan at the end of a path.
    #[tactic(auto, using(crate::proofs::Home::home, crate::proofs::Home::still_unspoiled, crate::proofs::Home::can_still))]
    pub(crate) fn expand(
        &mut self,
        board: &mut Board,
        path: &[Proposal],
        branch: &Branch,
    ) -> Result<(), AllocError>
        requires { board.old.spoiled ≡ false }
        ensures { OnOk result (board.new ≡ board.old) }
    {
        if path.is_empty() {
            return self.expand_here(board, branch);
        }
        let first = path[0].mv;
        if !may_be_made(board, &first) {
            return Ok(());
        }
        let undo = make_for_now(self.alloc, board, &first)?;
        self.expand(board, &path[1..], branch)?;
        take_back(board, &undo)?;
        Ok(())
    }
}
