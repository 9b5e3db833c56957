//! Changes of levels over block points, with the most steps that they take.
ghost use Rattle.std.specs.Prelude.{◌≡◌, ◌≤◌, ◌+◌, neg_ℤ, false, true, [], ◌∷◌, ◌++◌, length, OnOk, OnErr, IfOk, IsErr};
ghost use Rattle.pl_points.specs.Standing.{without, stands};
ghost use Rattle.pl_level.specs.Effects.{IsEffect, effect_of, same_effect, low_now, high_now};
ghost use Rattle.pl_level.specs.Soundness.{AreChanges};
ghost use Rattle.pl_level.specs.Bounds.{bound};

use crate::level::Level;
use crate::reservation::LevelChange;
use pl_blocks::{BlockPoints, laws_of_steps};
use pl_points::{Ledger, Steps};
use std::alloc::AllocError;

/// `Level::add` over block points: it reads summaries, and points only near what is outside.
pub fn add_bounded<L: Ledger>(
    timeline: &mut Level<BlockPoints>,
    at: u32,
    delta: i64,
    steps: &mut Steps<L>,
) -> Result<LevelChange, AllocError>
    requires is_effect { IsEffect (effect_of at delta) }
    requires few { timeline.old.spoiled ≡ false → length timeline.old.effects ≤ 319999 }
    ensures ok { OnOk result (timeline.new ≡ record timeline.old { effects = timeline.old.effects ++ effect_of at delta ∷ [] }) }
    ensures change { IfOk result (λ c. AreChanges (low_now timeline.old) (low_now timeline.new) (high_now timeline.old) (high_now timeline.new) c) }
    ensures unspoiled { OnOk result (timeline.old.spoiled ≡ false) }
    ensures err { OnErr result (timeline.new.spoiled ≡ true) }
    ensures after_spoil { timeline.old.spoiled ≡ true → IsErr result }
    ensures cost { timeline.old.spoiled ≡ false → steps.new ≤ steps.old + bound timeline.old (timeline.old.effects ++ effect_of at delta ∷ []) at delta }
    ensures idle { timeline.old.spoiled ≡ true → steps.new ≡ steps.old }
{
    laws_of_steps();
    timeline.add(at, delta, steps)
}

/// `Level::remove` over block points.
pub fn remove_bounded<L: Ledger>(
    timeline: &mut Level<BlockPoints>,
    at: u32,
    delta: i64,
    steps: &mut Steps<L>,
) -> Result<LevelChange, AllocError>
    requires { timeline.old.spoiled ≡ false → stands same_effect (effect_of at delta) timeline.old.effects ≡ true }
    ensures ok { OnOk result (timeline.new ≡ record timeline.old { effects = without same_effect (effect_of at delta) timeline.old.effects }) }
    ensures change { IfOk result (λ c. AreChanges (low_now timeline.old) (low_now timeline.new) (high_now timeline.old) (high_now timeline.new) c) }
    ensures unspoiled { OnOk result (timeline.old.spoiled ≡ false) }
    ensures err { OnErr result (timeline.new.spoiled ≡ true) }
    ensures after_spoil { timeline.old.spoiled ≡ true → IsErr result }
    ensures cost { timeline.old.spoiled ≡ false → steps.new ≤ steps.old + bound timeline.old (without same_effect (effect_of at delta) timeline.old.effects) at (neg_ℤ delta) }
    ensures idle { timeline.old.spoiled ≡ true → steps.new ≡ steps.old }
{
    laws_of_steps();
    timeline.remove(at, delta, steps)
}
