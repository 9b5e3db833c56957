//! Passes split off and joined, and the length of the history. None of these calls waits.
ghost use Rattle.std.specs.Prelude.{◌≡◌, ◌+◌, ◌<◌, ◌≤◌, ◌++◌, ◌∷◌, [], false, true, length, max, IfOk, IsOk};
ghost use mathlib.Core.List.{IsPrefix};
ghost use Rattle.pl_turn.specs.History.{longer};
ghost use Rattle.pl_turn.specs.Passes.{seen_of, mine_of, counted_of, crew_of, leads, made_by, joined_by};
ghost use Rattle.pl_locked.specs.Plans.{BelongsTo};

use crate::plan::{Pass, SharedPlan};
use std::alloc::{AllocError, Global};

impl SharedPlan {
    /// A length that the history has reached. The stop counts as one.
    #[tactic(auto, using(crate::proofs::Turning::belongs_same))]
    pub fn entries(&self, pass: &mut Pass) -> u64
        requires { BelongsTo self.now pass.old }
        ensures own { BelongsTo self.now pass.new }
        ensures reached { counted_of pass.new ≡ result }
        ensures seen { length (seen_of pass.old) ≤ result }
        ensures later { counted_of pass.old ≤ result }
        ensures kept { (seen_of pass.new ≡ seen_of pass.old) × (mine_of pass.new ≡ mine_of pass.old) × (crew_of pass.new ≡ crew_of pass.old) }
    {
        self.lock.entries(pass)
    }

    /// A new pass, which has seen as much as the first. A pass takes no memory, so this never fails.
    #[tactic(auto, using(crate::proofs::Turning::belongs_same))]
    pub fn split(&self, alloc: Global, pass: &mut Pass) -> Result<Pass, AllocError>
        requires own { BelongsTo self.now pass.old }
        requires first { leads pass.old ≡ true }
        requires room { made_by pass.old < 1000 }
        ensures made { IsOk result }
        ensures own { BelongsTo self.now pass.new }
        ensures crew { crew_of pass.new ≡ record (crew_of pass.old) { made = made_by pass.old + 1 } }
        ensures kept { (seen_of pass.new ≡ seen_of pass.old) × (mine_of pass.new ≡ mine_of pass.old) × (counted_of pass.new ≡ counted_of pass.old) }
        ensures new_own { IfOk result (λ new. BelongsTo self.now new) }
        ensures new_follows { IfOk result (λ new. leads new ≡ false) }
        ensures new_seen { IfOk result (λ new. (seen_of new ≡ seen_of pass.old) × (counted_of new ≡ counted_of pass.old)) }
        ensures new_mine { IfOk result (λ new. mine_of new ≡ []) }
    {
        self.lock.split(alloc, pass)
    }

    /// Takes a pass in that was split off.
    #[tactic(auto, using(crate::proofs::Turning::belongs_joined))]
    pub fn join(&self, pass: &mut Pass, other: Pass)
        requires own { BelongsTo self.now pass.old }
        requires other { BelongsTo self.now other }
        requires first { leads pass.old ≡ true }
        ensures own { BelongsTo self.now pass.new }
        ensures crew { crew_of pass.new ≡ record (crew_of pass.old) { joined = joined_by pass.old ++ mine_of other ∷ [] } }
        ensures seen { seen_of pass.new ≡ longer (seen_of pass.old) (seen_of other) }
        ensures begins { IsPrefix (seen_of pass.old) (seen_of pass.new) × IsPrefix (seen_of other) (seen_of pass.new) }
        ensures mine { mine_of pass.new ≡ mine_of pass.old }
        ensures counted { counted_of pass.new ≡ max (counted_of pass.old) (counted_of other) }
    {
        self.lock.join(pass, other)
    }
}
