//! Want of memory.
ghost use Rattle.std.specs.Prelude.{◌≡◌, true, OnOk, OnErr};

use pl_board::Board;
use std::alloc::AllocError;

/// Hands on what was worked out over a board. If memory ran out, the board is spoiled.
pub(crate) fn or_spoil<T>(
    board: &mut Board,
    outcome: Result<T, AllocError>,
) -> Result<T, AllocError>
    ensures is { result ≡ outcome }
    ensures same { OnOk result (board.new ≡ board.old) }
    ensures err { OnErr result (board.new.spoiled ≡ true) }
{
    if outcome.is_err() {
        board.spoil();
    }
    outcome
}
