//! Repairs of turns that are left over. In these turns a root comes and goes, so the same plan is met over and over; which repair was
//! chosen for it is kept by its place, since the ids of its activities differ each time.
ghost use Rattle.std.specs.Prelude.{◌≡◌, false};

use crate::undo::may_be_made;
use pl_board::Board;
use pl_cand::{Proposal, candidates};
use pl_conflict::Conflict;
use std::alloc::{AllocError, Global};

/// Where a repair stands.
#[derive(Clone, Copy)]
pub(crate) struct Place {
    /// The place of its conflict among all but open goals.
    conflict: usize,
    /// Its place among the candidates of that conflict.
    repair: usize,
}

/// Where a repair of one of these conflicts stands.
pub(crate) fn place_of(
    alloc: Global,
    board: &Board,
    conflicts: &[Conflict],
    repair: &Proposal,
) -> Result<Option<Place>, AllocError>
    requires { board.now.spoiled ≡ false }
{
    let moves = candidates(alloc, board, &repair.conflict)?;
    let conflict = conflicts.iter().position(|k| *k == repair.conflict);
    let place = moves.iter().position(|mv| *mv == repair.mv);
    match (conflict, place) {
        (Some(conflict), Some(repair)) => Ok(Some(Place { conflict, repair })),
        _ => Ok(None),
    }
}

// The candidate of a conflict at a place, if it may be made.
fn candidate_at(
    alloc: Global,
    board: &Board,
    conflict: &Conflict,
    place: usize,
) -> Result<Option<Proposal>, AllocError>
    requires { board.now.spoiled ≡ false }
{
    let moves = candidates(alloc, board, conflict)?;
    match moves.get(place) {
        Some(mv) if may_be_made(board, mv) => Ok(Some(Proposal {
            conflict: *conflict,
            mv: *mv,
        })),
        _ => Ok(None),
    }
}

/// The repair of one of these conflicts that stands at a place, if it may be made.
pub(crate) fn repair_at(
    alloc: Global,
    board: &Board,
    conflicts: &[Conflict],
    place: &Place,
) -> Result<Option<Proposal>, AllocError>
    requires { board.now.spoiled ≡ false }
{
    match conflicts.get(place.conflict) {
        Some(conflict) => candidate_at(alloc, board, conflict, place.repair),
        None => Ok(None),
    }
}
