//! The plan for a message: the conflicts that stand are mended, and then the open goals are served one by one.
ghost use Rattle.std.specs.Prelude.{◌≡◌, false};

use crate::displacing::displace;
use crate::draft::Draft;
use crate::failures::Failures;
use crate::goals::open_goals;
use crate::tries::Tries;
use pl_board::Board;
use pl_cand::Proposal;
use pl_conflict::Conflict;
use std::alloc::AllocError;

fn count_failures(failures: &mut Failures, failed: &[Conflict]) -> Result<(), AllocError> {
    for conflict in failed {
        failures.add(conflict.subject)?;
    }
    Ok(())
}

// Mends the plan of a draft and serves its goals. The repairs that lead to it are handed out, the last first.
fn work_out(
    tries: &mut Tries,
    failures: &mut Failures,
    draft: &mut Draft,
) -> Result<Vec<Proposal>, AllocError>
    requires { draft.old.board.spoiled ≡ false }
{
    draft.mend_all(tries)?;
    let goals = open_goals(tries.alloc, &draft.board)?;
    draft.serve(tries, failures, goals.as_slice())?;
    let failed = open_goals(tries.alloc, &draft.board)?;
    displace(tries, failures, draft, failed.as_slice())?;
    let failed = open_goals(tries.alloc, &draft.board)?;
    count_failures(failures, failed.as_slice())?;
    let mut path = Vec::from_slice(tries.alloc, draft.path.as_slice())?;
    path.reverse();
    Ok(path)
}

/// The repairs that lead to the plan for a message, the last first: at most `turns`. At most `worlds` plans are looked at in one
/// search by layers.
pub(crate) fn plan(
    tries: &mut Tries,
    failures: &mut Failures,
    board: &Board,
    turns: usize,
    worlds: u32,
) -> Result<Vec<Proposal>, AllocError>
    requires { board.now.spoiled ≡ false }
{
    // A draft is dropped in this function alone, since each place that drops one costs a proof over all that its board holds.
    let mut draft = Draft::new(tries.alloc, board, turns, worlds)?;
    work_out(tries, failures, &mut draft)
}
