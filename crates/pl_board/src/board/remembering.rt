//! Choices that a board remembers, and what of them it keeps when its plan changes.
#![tactic(auto, using(pl_memo::proofs::Remembering::none_remembered))]

ghost use Rattle.std.specs.Prelude.{◌≡◌, IfSome, false};
ghost use Rattle.pl_memo.specs.Memories.{AreProper, AreRemembered, IsFewestAt, WasFewestAt};
ghost use Rattle.pl_update.specs.Changes.Replaced.{CanReplace, with_plan};

use super::Board;
use crate::watched::are_rising;
use pl_memo::{Memory, going};
use pl_plan::{Activity, RepairMove};
use std::mem;

impl Board {
    /// Forgets all that is remembered, and answers what of it holds once these activities have left the plan and the others have come.
    pub(super) fn memory_after(&mut self, gone: &[u32], placed: &[Activity]) -> Memory
        requires can { self.old.spoiled ≡ false → CanReplace self.old.state gone.now placed.now }
        ensures same { self.new ≡ self.old }
        ensures remembered { self.old.spoiled ≡ false → AreRemembered (with_plan gone.now placed.now self.old.state) result }
    {
        let memory = mem::replace(&mut self.memory, Memory::new(self.alloc));
        if memory.is_empty() {
            return memory;
        }
        if !are_rising(gone) {
            return Memory::new(self.alloc);
        }
        match going(self.alloc, &self.watched.state.plan, gone) {
            Ok(left) => memory.changed(self.alloc, &left, placed),
            Err(_) => Memory::new(self.alloc),
        }
    }

    /// The place of the first of these moves that leaves the fewest conflicts, if it is remembered.
    pub fn recall(&self, moves: &[RepairMove]) -> Option<usize>
        requires unspoiled { self.now.spoiled ≡ false }
        requires proper { AreProper self.now.state moves.now }
        ensures { IfSome result (IsFewestAt self.now.state moves.now) }
    {
        self.memory.recall(&self.watched.state, moves)
    }

    /// Remembers the place of the first of these moves that leaves the fewest conflicts. Where memory is wanting, it is
    /// not remembered, and the others may be forgotten.
    pub fn remember(&mut self, moves: &[RepairMove], place: usize)
        requires unspoiled { self.old.spoiled ≡ false }
        requires proper { AreProper self.old.state moves.now }
        requires fewest { IsFewestAt self.old.state moves.now place }
        ensures { self.new ≡ self.old }
    {
        let memory = mem::replace(&mut self.memory, Memory::new(self.alloc));
        self.memory = memory.remember(self.alloc, moves, place);
    }

    /// The same of the plan that stood before some activities left it and others came in their places.
    pub fn remember_before(
        &mut self,
        left: &[Activity],
        more: &[Activity],
        moves: &[RepairMove],
        place: usize,
    )
        requires unspoiled { self.old.spoiled ≡ false }
        requires fewest { WasFewestAt self.old.state left.now more.now moves.now place }
        ensures { self.new ≡ self.old }
    {
        let memory = mem::replace(&mut self.memory, Memory::new(self.alloc));
        self.memory = memory.remember_before(self.alloc, left, more, moves, place);
    }
}
