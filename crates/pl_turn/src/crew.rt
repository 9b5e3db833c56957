//! Passes split off and joined, and the length of the history. None of these calls waits.
ghost use Rattle.std.specs.Prelude.{◌≡◌, ◌+◌, ◌<◌, ◌≤◌, ◌++◌, ◌∷◌, [], false, true, length, max, IfOk, IsOk};
ghost use mathlib.Core.List.{IsPrefix};
ghost use Rattle.pl_turn.specs.History.{longer};
ghost use Rattle.pl_turn.specs.Passes.{IsPassOf, seen_of, mine_of, counted_of, in_turn, crew_of, leads, made_by, joined_by};

use crate::lock::{HISTORY, TurnLock};
use crate::logged::Logged;
use crate::pass::Pass;
use crate::steps::{Count, Cut, Learn, Take};
use std::alloc::{AllocError, Global};

impl<V: Logged> TurnLock<V> {
    /// A new pass, which has seen as much as the first. A pass takes no memory, so this never fails.
    pub fn split(&self, _alloc: Global, pass: &mut Pass<V>) -> Result<Pass<V>, AllocError>
        requires own { IsPassOf self.now pass.old }
        requires outside { in_turn pass.old ≡ false }
        requires first { leads pass.old ≡ true }
        requires room { made_by pass.old < 1000 }
        ensures made { IsOk result }
        ensures own { IsPassOf self.now pass.new }
        ensures crew { crew_of pass.new ≡ record (crew_of pass.old) { made = made_by pass.old + 1 } }
        ensures kept { (seen_of pass.new ≡ seen_of pass.old) × (mine_of pass.new ≡ mine_of pass.old) × (counted_of pass.new ≡ counted_of pass.old) × (in_turn pass.new ≡ false) }
        ensures new_own { IfOk result (λ new. IsPassOf self.now new) }
        ensures new_outside { IfOk result (λ new. (in_turn new ≡ false) × (leads new ≡ false)) }
        ensures new_seen { IfOk result (λ new. (seen_of new ≡ seen_of pass.old) × (counted_of new ≡ counted_of pass.old)) }
        ensures new_mine { IfOk result (λ new. mine_of new ≡ []) }
    {
        let seat = self.table.shared.split_seat::<Cut>(&mut pass.seat);
        Ok(Pass { seat })
    }

    /// Takes a pass in that was split off.
    pub fn join(&self, pass: &mut Pass<V>, other: Pass<V>)
        requires own { IsPassOf self.now pass.old }
        requires other { IsPassOf self.now other }
        requires outside { (in_turn pass.old ≡ false) × (in_turn other ≡ false) }
        requires first { leads pass.old ≡ true }
        ensures own { IsPassOf self.now pass.new }
        ensures outside { in_turn pass.new ≡ false }
        ensures crew { crew_of pass.new ≡ record (crew_of pass.old) { joined = joined_by pass.old ++ mine_of other ∷ [] } }
        ensures seen { seen_of pass.new ≡ longer (seen_of pass.old) (seen_of other) }
        ensures begins { IsPrefix (seen_of pass.old) (seen_of pass.new) × IsPrefix (seen_of other) (seen_of pass.new) }
        ensures mine { mine_of pass.new ≡ mine_of pass.old }
        ensures counted { counted_of pass.new ≡ max (counted_of pass.old) (counted_of other) }
    {
        let table = &self.table.shared;
        table.join_seat::<Take>(&mut pass.seat, other.into_seat());
        table.load::<Learn>(&mut pass.seat, HISTORY);
    }

    /// A length that the history has reached.
    pub fn entries(&self, pass: &mut Pass<V>) -> u64
        requires own { IsPassOf self.now pass.old }
        requires outside { in_turn pass.old ≡ false }
        ensures own { IsPassOf self.now pass.new }
        ensures outside { in_turn pass.new ≡ false }
        ensures reached { counted_of pass.new ≡ result }
        ensures seen { length (seen_of pass.old) ≤ result }
        ensures later { counted_of pass.old ≤ result }
        ensures kept { (seen_of pass.new ≡ seen_of pass.old) × (mine_of pass.new ≡ mine_of pass.old) × (crew_of pass.new ≡ crew_of pass.old) }
    {
        self.table.shared.load::<Count>(&mut pass.seat, HISTORY)
    }
}
