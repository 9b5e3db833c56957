//! Sets that go or come, and whether they decide a state that was seen.
ghost use Rattle.std.specs.Prelude.{◌≡◌, ◌∷◌, [], false, IsTrue};
ghost use Rattle.pl_bounds.specs.Afterwards.{moved_by};
ghost use Rattle.pl_bounds.specs.Moved.{demand_moved, moved_to};
ghost use Rattle.pl_bounds.specs.Seen.{EachSet, IsSeen};
ghost use Rattle.pl_bounds.specs.UnmetMusts.{DecidesNot, IsBehindIt};

use crate::seen::{differs_at, is_before};
use crate::stepwise::Way;
use crate::unmet_musts::UnmetMust;
use pl_board::Board;
use pl_semantics::{Asked, Demand};
use pl_state::Setting;

// Whether the set that was found stands behind this one.
fn is_behind(found: Option<Setting>, set: &Setting) -> bool
    ensures { IsTrue result → IsBehindIt set.now found }
{
    match found {
        Some(last) => is_before(set, &last),
        None => false,
    }
}

// Whether the set does not decide the state.
fn decides_not(board: &Board, unmet: &UnmetMust, set: &Setting) -> bool
    requires unspoiled { board.now.spoiled ≡ false }
    requires seen { IsSeen board.now.state unmet.now.seen }
    ensures { IsTrue result → DecidesNot board.now.state unmet.now set.now }
{
    if is_behind(unmet.set, set) {
        return true;
    }
    differs_at(board, &unmet.seen, set.at)
}

// Whether the set, moved to this moment, does not decide the state.
fn decides_not_at(board: &Board, unmet: &UnmetMust, set: &Setting, at: u64) -> bool
    requires unspoiled { board.now.spoiled ≡ false }
    requires seen { IsSeen board.now.state unmet.now.seen }
    ensures { IsTrue result → DecidesNot board.now.state unmet.now (record set.now { at = at }) }
{
    if u64::from(unmet.seen.at) < at {
        return true;
    }
    let moved = Setting {
        at: at as u32,
        id: set.id,
        index: set.index,
        state: set.state,
    };
    decides_not(board, unmet, &moved)
}

// Whether what is asked for does not decide the state.
fn is_idle(board: &Board, unmet: &UnmetMust, demand: &Demand) -> bool
    requires unspoiled { board.now.spoiled ≡ false }
    requires seen { IsSeen board.now.state unmet.now.seen }
    ensures { IsTrue result → EachSet unmet.now.seen.line (DecidesNot board.now.state unmet.now) (demand.now ∷ []) }
{
    if demand.line != unmet.seen.line {
        return true;
    }
    match demand.asked {
        Asked::Set(set) => decides_not(board, unmet, &set),
        _ => true,
    }
}

// The same of what is asked for once it is moved along.
fn is_idle_moved(board: &Board, unmet: &UnmetMust, way: Way, demand: &Demand) -> bool
    requires unspoiled { board.now.spoiled ≡ false }
    requires seen { IsSeen board.now.state unmet.now.seen }
    ensures { IsTrue result → EachSet unmet.now.seen.line (DecidesNot board.now.state unmet.now) (demand_moved way.from way.to demand.now ∷ []) }
{
    if demand.line != unmet.seen.line {
        return true;
    }
    match demand.asked {
        Asked::Set(set) => decides_not_at(board, unmet, &set, way.moved(set.at)),
        _ => true,
    }
}

/// Whether none of the sets that are asked for decides the state at which a must is unmet.
pub(crate) fn are_idle(board: &Board, unmet: &UnmetMust, demands: &[Demand]) -> bool
    requires unspoiled { board.now.spoiled ≡ false }
    requires seen { IsSeen board.now.state unmet.now.seen }
    ensures { IsTrue result → EachSet unmet.now.seen.line (DecidesNot board.now.state unmet.now) demands.now }
{
    for demand in demands {
        if !is_idle(board, unmet, demand) {
            return false;
        }
    }
    true
}

/// The same once they are moved along.
pub(crate) fn are_idle_moved(board: &Board, unmet: &UnmetMust, way: Way, demands: &[Demand]) -> bool
    requires unspoiled { board.now.spoiled ≡ false }
    requires seen { IsSeen board.now.state unmet.now.seen }
    ensures { IsTrue result → EachSet unmet.now.seen.line (DecidesNot board.now.state unmet.now) (moved_by way demands.now) }
{
    for demand in demands {
        if !is_idle_moved(board, unmet, way, demand) {
            return false;
        }
    }
    true
}
