//! Changes of capacities over block points, with the most steps that they take.
ghost use Rattle.std.specs.Prelude.{◌≡◌, ◌≤◌, ◌+◌, false, true, [], ◌∷◌, ◌++◌, length, OnOk, OnErr, IfOk, IsErr};
ghost use Rattle.pl_points.specs.Changes.{IsChange};
ghost use Rattle.pl_points.specs.Standing.{without, stands};
ghost use Rattle.pl_capacity.specs.Uses.{IsUse, use_of, same_use, spans_now, points_of};
ghost use Rattle.pl_capacity.specs.Bounds.{points_with_use, points_less_use, bound};

use crate::capacity::Capacity;
use pl_blocks::{BlockPoints, laws_of_steps};
use pl_points::{Change, Ledger, Steps};
use std::alloc::AllocError;

/// `Capacity::add` over block points: it reads summaries, and points only near what is above the most.
pub fn add_bounded<L: Ledger>(
    timeline: &mut Capacity<BlockPoints>,
    from: u32,
    to: u32,
    amount: i64,
    steps: &mut Steps<L>,
) -> Result<Change, AllocError>
    requires is_use { IsUse (use_of from to amount) }
    requires few { timeline.old.spoiled ≡ false → length timeline.old.uses ≤ 319999 }
    ensures ok { OnOk result (timeline.new ≡ record timeline.old { uses = timeline.old.uses ++ use_of from to amount ∷ [] }) }
    ensures change { IfOk result (λ c. IsChange (spans_now timeline.old) (spans_now timeline.new) c) }
    ensures unspoiled { OnOk result (timeline.old.spoiled ≡ false) }
    ensures err { OnErr result (timeline.new.spoiled ≡ true) }
    ensures after_spoil { timeline.old.spoiled ≡ true → IsErr result }
    ensures cost { timeline.old.spoiled ≡ false → steps.new ≤ steps.old + bound timeline.old.most (points_of timeline.old.uses) (points_with_use (use_of from to amount) timeline.old.uses) }
    ensures idle { timeline.old.spoiled ≡ true → steps.new ≡ steps.old }
{
    laws_of_steps();
    timeline.add(from, to, amount, steps)
}

/// `Capacity::remove` over block points.
pub fn remove_bounded<L: Ledger>(
    timeline: &mut Capacity<BlockPoints>,
    from: u32,
    to: u32,
    amount: i64,
    steps: &mut Steps<L>,
) -> Result<Change, AllocError>
    requires { timeline.old.spoiled ≡ false → stands same_use (use_of from to amount) timeline.old.uses ≡ true }
    ensures ok { OnOk result (timeline.new ≡ record timeline.old { uses = without same_use (use_of from to amount) timeline.old.uses }) }
    ensures change { IfOk result (λ c. IsChange (spans_now timeline.old) (spans_now timeline.new) c) }
    ensures unspoiled { OnOk result (timeline.old.spoiled ≡ false) }
    ensures err { OnErr result (timeline.new.spoiled ≡ true) }
    ensures after_spoil { timeline.old.spoiled ≡ true → IsErr result }
    ensures cost { timeline.old.spoiled ≡ false → steps.new ≤ steps.old + bound timeline.old.most (points_of timeline.old.uses) (points_less_use (use_of from to amount) timeline.old.uses) }
    ensures idle { timeline.old.spoiled ≡ true → steps.new ≡ steps.old }
{
    laws_of_steps();
    timeline.remove(from, to, amount, steps)
}
