ghost use Rattle.std.specs.Prelude.{◌≡◌, false};
ghost use Rattle.pl_semantics.specs.Conflicts.{conflicts_of};
ghost use Rattle.pl_laws.specs.Laws.{state_of};
ghost use Rattle.pl_laws.specs.Recomputed.{value_at, IsAhead};

use pl_board::Board;
use pl_conflict::ConflictSet;
use pl_machine::Machine;
use pl_model::Timeline;

/// All conflicts, and what a timeline comes to at a moment.
#[derive(Drop)]
pub struct BoardReading<'a> {
    pub conflicts: &'a ConflictSet,
    pub value: i64,
}

fn value_at(board: &Board, line: u32, t: u32) -> i64
    requires unspoiled { board.now.spoiled ≡ false }
    requires ahead { IsAhead board.now.state line t }
    ensures { result ≡ value_at board.now.state line t }
{
    match board.model().timelines.as_slice().get(line as usize) {
        Some(Timeline::Capacity { .. }) => board.use_at(line, t),
        Some(Timeline::Level { .. }) => board.level_at(line, t),
        Some(Timeline::States { .. }) => i64::from(board.state_at(line, t)),
        None => unreachable!(),
    }
}

/// What the board of a machine tells, by the lists that it keeps and mends at each change. After each entry this is what is computed
/// anew from the plan after the log: from its activities and goals, the latest telemetry, the present and what is committed.
pub fn board_after_log(machine: &Machine, line: u32, t: u32) -> BoardReading<'_>
    requires unspoiled { machine.now.spoiled ≡ false }
    requires ahead { IsAhead (state_of machine.now.model machine.now.log) line t }
    ensures conflicts { result.conflicts.now ≡ conflicts_of (state_of machine.now.model machine.now.log) }
    ensures value { result.value ≡ value_at (state_of machine.now.model machine.now.log) line t }
{
    let _log = machine.log();
    let board = machine.board();
    BoardReading {
        conflicts: board.conflicts(),
        value: value_at(board, line, t),
    }
}
