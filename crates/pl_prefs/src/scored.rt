ghost use Rattle.std.specs.Prelude.{◌≡◌, ◌≤◌, true, false, [], length, All, OnOk, OnErr, IfOk, IfErr, IsErr};
ghost use Rattle.pl_semantics.specs.Conflicts.{conflicts_of};
ghost use Rattle.pl_prefs.specs.Prefers.{IsPreferOf};
ghost use Rattle.pl_prefs.specs.Scoreds.{IsScored, IsStepped, StandsFor, scoring_of};

use crate::prefer::Prefer;
use crate::raising::raised;
use crate::score_fault::ScoreFault;
use crate::scores::score;
use crate::stepping::step_on;
use pl_board::Board;
use pl_plan::RepairMove;
use pl_points::{Ledger, Steps};
use std::alloc::{AllocError, Global};

/// A board whose plan has no conflicts, with what is preferred of it and how well it meets that.
#[derive(Drop)]
pub struct Scored {
    board: Board,
    prefers: Vec<Prefer>,
    score: i128,
}

impl std::marker::Model for Scored {
    ghost use Rattle.pl_prefs.specs.Scoreds.{Scoring, IsScoring};
    ghost use Rattle.pl_model.specs.contracts.expressions.Expr as e;
    ghost use Rattle.std.specs.Coded.{codes};

    ghost Value = { Scoring };

    ghost coded = { Prim.hlevel (codes, e.the_row.coded) };

    ghost view = { λ x. record { board = x.board; prefers = x.prefers.items; score = x.score } };

    ghost invariant = { λ x. IsScoring x.board x.prefers.items x.score };
}

impl Scored {
    /// The score of a plan without conflicts. At most 64 things are preferred.
    pub fn new(_alloc: Global, board: Board, prefers: Vec<Prefer>) -> Result<Scored, ScoreFault>
        requires unspoiled { board.spoiled ≡ false }
        requires next { board.state.next_id ≤ 3999999000 }
        requires few { length prefers.items ≤ 64 }
        requires fits { All (IsPreferOf board.state.model) prefers.items }
        ensures made { IfOk result (λ x. x ≡ scoring_of board prefers.items) }
        // Exactly where no conflict stands.
        ensures clear { OnOk result (conflicts_of board.state ≡ []) }
        ensures fault { IfErr result (StandsFor board.state) }
    {
        let count = board.conflicts().len();
        if count > 0 {
            return Err(ScoreFault::Conflicts(count));
        }
        let score = score(&board, &prefers);
        Ok(Scored {
            board,
            prefers,
            score,
        })
    }

    /// The score of the plan, as long as the board is not spoiled.
    pub fn score(&self) -> i128
        ensures value { result ≡ self.now.score }
        ensures scored { self.now.board.spoiled ≡ false → IsScored self.now.board.state self.now.prefers result }
    {
        self.score
    }

    /// The board with the plan.
    pub fn board(&self) -> &Board
        ensures { result.now ≡ self.now.board }
    {
        &self.board
    }

    /// Makes the move that betters the plan the most, the first among equals, and tells it. Where no move betters it, nothing changes.
    /// Want of memory spoils the board, and every later step answers it again.
    pub fn step<L: Ledger>(
        &mut self,
        alloc: Global,
        steps: &mut Steps<L>,
    ) -> Result<Option<RepairMove>, AllocError>
        ensures stepped { IfOk result (λ m. IsStepped m self.old self.new) }
        ensures prefers { self.new.prefers ≡ self.old.prefers }
        ensures err { OnErr result (self.new.board.spoiled ≡ true) }
        ensures after_spoil { self.old.board.spoiled ≡ true → IsErr result }
    {
        if self.board.spoiled() {
            return Err(AllocError);
        }
        match step_on(alloc, &mut self.board, &self.prefers, steps)? {
            Some(choice) => {
                self.score = raised(&self.board, &self.prefers, self.score, choice.gain);
                Ok(Some(choice.mv))
            }
            None => Ok(None),
        }
    }
}
