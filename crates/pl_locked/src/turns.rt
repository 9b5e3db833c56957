//! A turn: the value is taken out of the lock and put back.
ghost use Rattle.std.specs.Prelude.{◌≡◌, ◌++◌, ◌∷◌, [], true, length};
ghost use mathlib.Core.List.{IsPrefix};
ghost use Rattle.pl_turn.specs.History.{IsSameOrOneMore};
ghost use Rattle.pl_turn.specs.Passes.{IsPassOf, seen_of, mine_of, counted_of, in_turn, crew_of};
ghost use Rattle.pl_acts.specs.Inside.{IsSound, items_in};
ghost use Rattle.pl_locked.specs.Plans.{BelongsTo};
ghost use Rattle.pl_locked.specs.Turns.{TakesTurn};

use crate::plan::{Pass, SharedPlan};
use pl_acts::{Held, Noted};
use std::sync::Wait;

impl SharedPlan {
    /// Waits for a turn.
    pub(crate) fn enter<R: Wait>(&self, rt: &R, pass: &mut Pass) -> Held
        requires { BelongsTo self.now pass.old }
        ensures own { IsPassOf self.now.lock pass.new }
        ensures turn { in_turn pass.new ≡ true }
        ensures history { seen_of pass.new ≡ items_in result }
        ensures sound { IsSound result.plan }
        ensures takes { TakesTurn pass.old pass.new }
        ensures mine { mine_of pass.new ≡ mine_of pass.old }
    {
        let held = self.lock.enter(rt, pass);
        held.is_sound();
        held
    }

    /// Ends the turn.
    pub(crate) fn leave(&self, pass: &mut Pass, held: Held)
        requires own { IsPassOf self.now.lock pass.old }
        requires turn { in_turn pass.old ≡ true }
        requires grows { IsSameOrOneMore (seen_of pass.old) (items_in held) }
        ensures own { BelongsTo self.now pass.new }
        ensures seen { seen_of pass.new ≡ items_in held }
        ensures sound { IsSound held.plan }
        ensures same { items_in held ≡ seen_of pass.old → mine_of pass.new ≡ mine_of pass.old }
        ensures grown { (e : Noted) → items_in held ≡ seen_of pass.old ++ e ∷ [] → mine_of pass.new ≡ mine_of pass.old ++ (length (seen_of pass.old), e) ∷ [] }
        ensures kept { (counted_of pass.new ≡ counted_of pass.old) × (crew_of pass.new ≡ crew_of pass.old) }
    {
        held.is_sound();
        self.lock.leave(pass, held);
    }
}
