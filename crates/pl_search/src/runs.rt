//! Plans that are looked at, each made on the board from the one before where both place the same activities.
ghost use Rattle.std.specs.Prelude.{◌≡◌, ◌<◌, ◌≤◌, ◌∷◌, false, true, length, All, IfOk, OnOk};
ghost use Rattle.pl_semantics.specs.Whole.{IsWhole};
ghost use Rattle.pl_moves.specs.Changes.{IsOfActivities};
ghost use Rattle.pl_moves.specs.Runs.{goes_on, CanBeMade, IsTrialOf};
ghost use Rattle.pl_search.specs.Undos.{MayBeMade};

use crate::tries::Tries;
use pl_board::Board;
use pl_moves::{Trial, go_on, make_change, run_length, start_of, trial_of};
use pl_plan::RepairMove;
use pl_points::{Quiet, Steps};
use std::alloc::{AllocError, Global};

impl Tries {
    // Looks at what the first of some moves makes, which is the fresh one of this number, and then at what each of the others does.
    // The last is taken back.
    fn look_along(
        &mut self,
        board: &mut Board,
        first: &RepairMove,
        rest: &[RepairMove],
        trial: &Trial,
        number: usize,
    ) -> Result<(), AllocError>
        requires unspoiled { board.old.spoiled ≡ false }
        requires whole { IsWhole board.old.state }
        requires next { board.old.state.next_id ≤ 3999999000 }
        requires activities { IsOfActivities first.now }
        requires allowed { All (CanBeMade board.old.state) (first.now ∷ rest.now) }
        requires alike { All (λ m. goes_on first.now m ≡ true) rest.now }
        requires trial { IsTrialOf board.old.state first.now trial.now.change.gone.items trial.now.change.placed.items trial.now.undo.gone.items trial.now.undo.placed.items }
        ensures { OnOk result (board.new ≡ board.old) }
    {
        let mut steps = Steps::new(Quiet);
        let next = board.next_id();
        make_change(board, &trial.change, &mut steps)?;
        self.look(board, number)?;
        let mut at = 0;
        'run: while at < rest.len() {
            let to = start_of(&rest[at]);
            go_on(self.alloc, board, trial, start_of(first), to, &mut steps)?;
            at += 1;
            self.look(board, number.saturating_add(at))?;
        }
        make_change(board, &trial.undo, &mut steps)?;
        board.reset_next(next);
        Ok(())
    }

    // Looks at what the first of some fresh moves makes, which is the one of this number, and those that go on with it. Answers how
    // many these are.
    fn look_at_run(
        &mut self,
        board: &mut Board,
        moves: &[RepairMove],
        number: usize,
    ) -> Result<usize, AllocError>
        requires unspoiled { board.old.spoiled ≡ false }
        requires allowed { All (MayBeMade board.old.state) moves.now }
        requires some { 0 < length moves.now }
        ensures same { OnOk result (board.new ≡ board.old) }
        ensures some { IfOk result (λ n. 0 < n) }
        ensures few { IfOk result (λ n. n ≤ length moves.now) }
    {
        let first = &moves[0];
        let rest = &moves[1..];
        let more = run_length(first, rest);
        let trial = trial_of(self.alloc, board.state(), first)?;
        self.look_along(board, first, &rest[..more], &trial, number)?;
        Ok(more + 1)
    }

    /// Looks at what each of the fresh moves makes.
    pub(crate) fn look_at_each(
        &mut self,
        board: &mut Board,
        fresh: &[RepairMove],
    ) -> Result<(), AllocError>
        requires unspoiled { board.old.spoiled ≡ false }
        requires allowed { All (MayBeMade board.old.state) fresh.now }
        ensures { OnOk result (board.new ≡ board.old) }
    {
        let mut number = 0;
        'runs: while number < fresh.len() {
            let count = self.look_at_run(board, &fresh[number..], number)?;
            number += count;
        }
        self.end_look();
        Ok(())
    }
}
