//! The numbers and the starts that are tried, as numbers without a sign.
ghost use Rattle.std.specs.Prelude.{◌≡◌, false, pos, map, All, IfOk};
ghost use Rattle.pl_plan.specs.Activities.{IsLive};
ghost use Rattle.pl_semantics.specs.Whole.{IsWhole};
ghost use Rattle.pl_semantics.specs.Starts.{places_at, spread};
ghost use Rattle.pl_cand.specs.Near.{IsSmall};

use crate::{repairs, strides};
use pl_board::Board;
use std::alloc::{AllocError, Global};

// The same numbers in the type of starts. None of them is below 0.
fn from_zero(alloc: Global, numbers: &[i64]) -> Result<Vec<u32>, AllocError>
    requires { All IsSmall numbers.now }
    ensures { IfOk result (λ all. map pos all.items ≡ numbers.now) }
{
    let mut all = Vec::new(alloc);
    for number in numbers {
        all.push(*number as u32)?;
    }
    Ok(all)
}

/// The numbers from `low` to `high` that are tried: `low` and each step up from it, sixteen at most.
pub fn spread(alloc: Global, low: u32, high: u32) -> Result<Vec<u32>, AllocError>
    ensures { IfOk result (λ all. map pos all.items ≡ spread (pos low) (pos high)) }
{
    let numbers = strides::spread(alloc, i64::from(low), i64::from(high))?;
    from_zero(alloc, numbers.as_slice())
}

/// The starts that are tried for a live activity: the floor, then those of the window of the goal that it serves, else
/// those from the floor to the last.
pub fn places(alloc: Global, board: &Board, id: u32) -> Result<Vec<u32>, AllocError>
    requires unspoiled { board.now.spoiled ≡ false }
    requires live { IsLive id board.now.state.plan.activities }
    ensures { IfOk result (λ all. map pos all.items ≡ places_at board.now.state id) }
{
    let state = board.state();
    let a = state.live(id).unwrap();
    let starts = repairs::places(alloc, state, a)?;
    from_zero(alloc, starts.as_slice())
}
