//! The calls that make a lock and take it apart.
ghost use Rattle.std.specs.Prelude.{◌≡◌, ◌≤◌, ◌∷◌, [], false, true, length, IfOk, IfErr};
ghost use Rattle.std.specs.List.{All};
ghost use mathlib.Core.List.{IsPrefix};
ghost use Rattle.pl_turn.specs.History.{IsEachOnce, StandsIn, times_in};
ghost use Rattle.pl_turn.specs.Passes.{IsPassOf, seen_of, mine_of, counted_of, in_turn, crew_of, leads, opening_of, made_by, joined_by, lists_of};

use crate::lock::{SLOT, TurnLock};
use crate::logged::Logged;
use crate::pass::Pass;
use atomic_table::{Refused, Table};
use std::alloc::{AllocFailed, Global};
use std::snapshot::Snapshot;

impl<V: Logged> TurnLock<V> {
    /// A lock over the value, and its first pass. For want of memory the value comes back.
    pub fn new(alloc: Global, value: V) -> Result<(TurnLock<V>, Pass<V>), V>
        ensures own { IfOk result (λ made. IsPassOf made.0 made.1) }
        ensures outside { IfOk result (λ made. in_turn made.1 ≡ false) }
        ensures seen { IfOk result (λ made. seen_of made.1 ≡ V.entries value) }
        ensures mine { IfOk result (λ made. mine_of made.1 ≡ []) }
        ensures first { IfOk result (λ made. crew_of made.1 ≡ record { leads = true; opening = length (V.entries value); made = 0; joined = [] }) }
        ensures back { IfErr result (λ same. same ≡ value) }
    {
        let opening = Snapshot::of(&value);
        let words = [value.logged(), 0, 0];
        let slots = slot_with(alloc, value)?;
        match Table::new(alloc, &words, slots, &opening) {
            Ok((table, seat)) => Ok((TurnLock { table }, Pass { seat })),
            Err(Refused { slots }) => Err(value_of(slots)),
        }
    }

    /// The value, once every pass that was split off is joined.
    pub fn close(self, pass: Pass<V>) -> V
        requires own { IsPassOf self pass }
        requires outside { in_turn pass ≡ false }
        requires first { leads pass ≡ true }
        requires all_joined { made_by pass ≡ length (joined_by pass) }
        ensures history { IsPrefix (seen_of pass) (V.entries result) }
        ensures counted { counted_of pass ≤ length (V.entries result) }
        ensures stands { All (StandsIn (V.entries result)) (lists_of pass) }
        ensures owners { IsEachOnce (opening_of pass) (length (V.entries result)) (λ place. times_in place (lists_of pass)) }
    {
        let TurnLock { table } = self;
        let mut closed = table.close_with(pass.into_seat());
        let slot = closed.take(SLOT);
        closed.free();
        match slot {
            Some(value) => value,
            None => unreachable!(),
        }
    }
}

// The one slot, with the value in it.
fn slot_with<V>(alloc: Global, value: V) -> Result<Vec<Option<V>>, V>
    ensures ok { IfOk result (λ slots. slots.items ≡ Some value ∷ []) }
    ensures back { IfErr result (λ same. same ≡ value) }
{
    let mut slots = Vec::new(alloc);
    match slots.push(Some(value)) {
        Ok(()) => Ok(slots),
        Err(AllocFailed { value }) => {
            slots.destroy_empty();
            match value {
                Some(value) => Err(value),
                None => unreachable!(),
            }
        }
    }
}

// The value of the one slot.
fn value_of<V>(mut slots: Vec<Option<V>>) -> V
    requires { (value : V) × (slots.items ≡ Some value ∷ []) }
    ensures { slots.items ≡ Some result ∷ [] }
{
    let Some(Some(value)) = slots.pop() else {
        unreachable!()
    };
    slots.destroy_empty();
    value
}
