//! Plans with what is preferred of them.
ghost use Rattle.std.specs.Prelude.{◌≡◌, ◌≤◌, false, length, All};
ghost use Rattle.pl_prefs.specs.Prefers.{IsPreferOf};

use crate::asserting::holds;
use crate::board::boards::empty;
use crate::board::changes::change_all;
use pl_board::Board;
use pl_prefs::{Prefer, ScoreFault, Scored, read_prefer};
use std::alloc::Global;
use std::process::Abort;

/// The preference of a line.
fn preferred(rt: &impl Abort, alloc: Global, board: &Board, line: &str) -> Prefer
    requires { board.now.spoiled ≡ false }
    ensures { IsPreferOf board.now.state.model result }
{
    let state = board.state();
    holds(rt, "a short line", line.len() <= 4096);
    let read = read_prefer(alloc, state.model.get(), line.as_bytes());
    read.expect(rt, "a preference")
}

/// What is preferred of a board's plan, one a line.
fn all_preferred(rt: &impl Abort, alloc: Global, board: &Board, lines: &str) -> Vec<Prefer>
    requires { board.now.spoiled ≡ false }
    ensures few { length result.items ≤ 64 }
    ensures fits { All (IsPreferOf board.now.state.model) result.items }
{
    let mut all = Vec::new(alloc);
    for line in lines.lines() {
        holds(rt, "few", all.len() < 64);
        let prefer = preferred(rt, alloc, board, line);
        all.push(prefer).expect(rt, "memory");
    }
    all
}

/// The plan of a model's text behind the changes of a script, with its score, or why there is none.
pub fn scored(
    rt: &impl Abort,
    alloc: Global,
    model: &str,
    script: &str,
    prefers: &str,
) -> Result<Scored, ScoreFault> {
    let mut board = empty(rt, alloc, model);
    holds(rt, script, change_all(alloc, &mut board, script).is_some());
    holds(rt, "enough memory", !board.spoiled());
    holds(rt, "ids that are left", board.next_id() <= 3_999_999_000);
    let prefers = all_preferred(rt, alloc, &board, prefers);
    Scored::new(alloc, board, prefers)
}
