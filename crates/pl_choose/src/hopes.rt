//! The moves that may be better than the best so far.
ghost use Rattle.std.specs.Prelude.{◌≡◌, ◌∷◌, ◌++◌, [], true, All, IfOk, OnOk, OnErr, length};
ghost use Rattle.pl_choose.specs.Tried.{below, AreHopes};
ghost use Rattle.pl_choose.specs.Found.{IsAllowed};
ghost use Rattle.pl_bounds.specs.Bounds.{AreLeast, AreLeastBesideStates};

use crate::best::Best;
use pl_board::Board;
use pl_plan::RepairMove;
use std::alloc::{AllocError, Global};

/// Some moves, and the bound of each.
#[derive(Drop)]
pub(crate) struct Hopes {
    pub(crate) moves: Vec<RepairMove>,
    pub(crate) bounds: Vec<u32>,
}

impl Hopes {
    // No moves yet, with room for so many.
    fn new(alloc: Global, room: usize) -> Result<Hopes, AllocError>
        ensures moves { IfOk result (λ h. h.moves.items ≡ []) }
        ensures bounds { IfOk result (λ h. h.bounds.items ≡ []) }
    {
        Ok(Hopes {
            moves: Vec::with_capacity(alloc, room)?,
            bounds: Vec::with_capacity(alloc, room)?,
        })
    }

    // Keeps a move if its bound is lower than this number of conflicts.
    fn add_if_hopeful(&mut self, mv: &RepairMove, bound: u32, left: usize) -> Result<(), AllocError>
        ensures moves { OnOk result (self.new.moves.items ≡ self.old.moves.items ++ below left (bound ∷ []) (mv.now ∷ [])) }
        ensures bounds { OnOk result (self.new.bounds.items ≡ self.old.bounds.items ++ below left (bound ∷ []) (bound ∷ [])) }
    {
        if bound as usize >= left {
            return Ok(());
        }
        self.moves.push(*mv)?;
        self.bounds.push(bound)?;
        Ok(())
    }

    // The moves whose bounds are lower than this number of conflicts.
    fn sift(
        alloc: Global,
        moves: &[RepairMove],
        bounds: &[u32],
        left: usize,
    ) -> Result<Hopes, AllocError>
        requires { length bounds.now ≡ length moves.now }
        ensures moves { IfOk result (λ h. h.moves.items ≡ below left bounds.now moves.now) }
        ensures bounds { IfOk result (λ h. h.bounds.items ≡ below left bounds.now bounds.now) }
    {
        let mut hopes = Hopes::new(alloc, moves.len())?;
        for (place, mv) in moves.iter().enumerate() {
            hopes.add_if_hopeful(mv, bounds[place], left)?;
        }
        Ok(hopes)
    }
}

/// Those of some moves that by their bounds may be better than the best so far.
pub(crate) fn hopes_of(
    alloc: Global,
    board: &mut Board,
    best: Best,
    moves: &[RepairMove],
    bounds: &[u32],
) -> Result<Hopes, AllocError>
    requires allowed { All (IsAllowed board.old.state) moves.now }
    requires least { AreLeast board.old.state moves.now bounds.now }
    ensures beside { IfOk result (λ h. AreLeastBesideStates board.old.state moves.now bounds.now → AreLeastBesideStates board.old.state h.moves.items h.bounds.items) }
    ensures hopes { IfOk result (λ h. AreHopes board.old.state best moves.now h.moves.items h.bounds.items) }
    ensures same { OnOk result (board.new ≡ board.old) }
    ensures err { OnErr result (board.new.spoiled ≡ true) }
{
    match Hopes::sift(alloc, moves, bounds, best.left) {
        Ok(hopes) => Ok(hopes),
        Err(fault) => {
            board.spoil();
            Err(fault)
        }
    }
}
