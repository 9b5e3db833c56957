//! A stretch: starts between which a move is known to be legal, without a look at each of them.
ghost use Rattle.std.specs.Prelude.{◌≡◌, true, false, All};
ghost use Rattle.std.specs.List.{list_all};
ghost use Rattle.pl_semantics.specs.declared.plan_state.PlanState.{PlanState};
ghost use Rattle.pl_semantics.specs.Legal.{is_legal};
ghost use Rattle.pl_semantics.specs.Moves.{is_proper};
ghost use Rattle.pl_moves.specs.Runs.{goes_on};
ghost use Rattle.pl_choose.specs.Found.{IsProper};
ghost use Rattle.pl_choose.specs.Stretches.{is_kin, is_within, IsStretch};

use pl_board::Board;
use pl_moves::{goes_on, is_legal, start_of};
use pl_plan::RepairMove;

// If fewer moves than this place the same activities, each is looked at by itself.
const FEW: usize = 3;

/// A move and two starts. Each move that places the same activities as this one, with a start from the one to the other, is legal.
#[derive(Clone, Copy, Debug)]
pub(crate) struct Stretch {
    pub(crate) of: RepairMove,
    pub(crate) from: u32,
    pub(crate) to: u32,
}

impl Stretch {
    // A stretch in which no start lies.
    fn none(of: RepairMove) -> Stretch
        ensures { (s : PlanState) → IsStretch s result }
    {
        Stretch { of, from: 1, to: 0 }
    }

    // Whether a move places the same activities, with a start within the stretch.
    fn has(self, mv: &RepairMove) -> bool
        ensures { result ≡ is_within self mv.now }
    {
        goes_on(&self.of, mv) && self.from <= start_of(mv) && start_of(mv) <= self.to
    }

    /// Whether each of these moves places the same activities, with a start within the stretch.
    pub(crate) fn has_all(self, moves: &[RepairMove]) -> bool
        ensures { result ≡ list_all (is_within self) moves.now }
    {
        moves.iter().all(|mv| self.has(mv))
    }

    /// Whether a move is legal. The plan is looked at only if the move is not within the stretch.
    #[tactic(auto, using(crate::proofs::Between::has_legal))]
    pub(crate) fn is_legal(self, board: &Board, mv: &RepairMove) -> bool
        requires unspoiled { board.now.spoiled ≡ false }
        requires proper { is_proper board.now.state mv.now ≡ true }
        requires stretch { IsStretch board.now.state self }
        ensures { result ≡ is_legal board.now.state mv.now }
    {
        if self.has(mv) {
            return true;
        }
        is_legal(board, mv)
    }
}

// The stretch from the start of one move to that of another, if both are legal, and else one in which no start lies.
fn between(board: &Board, of: RepairMove, first: &RepairMove, last: &RepairMove) -> Stretch
    requires unspoiled { board.now.spoiled ≡ false }
    requires first { is_kin board.now.state of first.now ≡ true }
    requires last { is_kin board.now.state of last.now ≡ true }
    ensures { IsStretch board.now.state result }
{
    if is_legal(board, first) && is_legal(board, last) {
        return Stretch {
            of,
            from: start_of(first),
            to: start_of(last),
        };
    }
    Stretch::none(of)
}

/// The stretch from the first to the last of some moves that place the same activities as `of`, if they are not few and both are
/// legal.
pub(crate) fn stretch_of(board: &Board, of: RepairMove, run: &[RepairMove]) -> Stretch
    requires unspoiled { board.now.spoiled ≡ false }
    requires proper { All (IsProper board.now.state) run.now }
    requires same { All (λ m. goes_on of m ≡ true) run.now }
    ensures { IsStretch board.now.state result }
{
    if run.len() < FEW {
        return Stretch::none(of);
    }
    between(board, of, &run[0], &run[run.len() - 1])
}
