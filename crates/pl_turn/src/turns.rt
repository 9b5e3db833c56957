//! Turns: the calls that take the value out and put it back.
ghost use Rattle.std.specs.Prelude.{◌≡◌, ◌<◌, ◌≤◌, ◌^◌, ◌++◌, ◌∷◌, [], false, true, length};
ghost use mathlib.Core.List.{IsPrefix};
ghost use Rattle.pl_turn.specs.History.{IsSameOrOneMore};
ghost use Rattle.pl_turn.specs.Steps.{adding, ending};
ghost use Rattle.pl_turn.specs.Passes.{IsPassOf, known, seen_of, mine_of, counted_of, in_turn, crew_of};

use crate::lock::{HISTORY, SERVING, SLOT, TICKETS, TurnLock};
use crate::logged::Logged;
use crate::pass::Pass;
use crate::steps::{Add, Draw, End, Measure, Serve};
use std::hint::spin_loop;
use std::sync::Wait;

// A thread looks as often for its turn before it sleeps: most turns are shorter than it takes to fall asleep and be woken.
const LOOKS: u32 = 2000;

impl<V: Logged> TurnLock<V> {
    /// Waits for its turn, and hands the value out.
    pub fn enter<R: Wait>(&self, rt: &R, pass: &mut Pass<V>) -> V
        requires own { IsPassOf self.now pass.old }
        requires outside { in_turn pass.old ≡ false }
        ensures own { IsPassOf self.now pass.new }
        ensures turn { in_turn pass.new ≡ true }
        ensures history { V.entries result ≡ seen_of pass.new }
        ensures longer { IsPrefix (seen_of pass.old) (seen_of pass.new) }
        ensures counted { counted_of pass.old ≤ length (seen_of pass.new) }
        ensures kept { (mine_of pass.new ≡ mine_of pass.old) × (counted_of pass.new ≡ counted_of pass.old) × (crew_of pass.new ≡ crew_of pass.old) }
    {
        let ticket = self
            .table
            .shared
            .fetch_add::<Draw>(&mut pass.seat, TICKETS, 1);
        let mut looks = 0;
        for _ in rt.forever() {
            let called = self.table.shared.load::<Serve<V>>(&mut pass.seat, SERVING);
            if called == ticket {
                return self.take_out(pass);
            }
            looks = self.pause(rt, called, looks);
        }
        unreachable!()
    }

    /// Puts the value back, with at most one entry more, and ends the turn.
    pub fn leave(&self, pass: &mut Pass<V>, value: V)
        requires own { IsPassOf self.now pass.old }
        requires turn { in_turn pass.old ≡ true }
        requires grows { IsSameOrOneMore (seen_of pass.old) (V.entries value) }
        ensures own { IsPassOf self.now pass.new }
        ensures outside { in_turn pass.new ≡ false }
        ensures seen { seen_of pass.new ≡ V.entries value }
        ensures same { V.entries value ≡ seen_of pass.old → mine_of pass.new ≡ mine_of pass.old }
        ensures grown { (e : V.Item) → V.entries value ≡ seen_of pass.old ++ e ∷ [] → mine_of pass.new ≡ mine_of pass.old ++ (length (seen_of pass.old), e) ∷ [] }
        ensures kept { (counted_of pass.new ≡ counted_of pass.old) × (crew_of pass.new ≡ crew_of pass.old) }
    {
        let after = value.logged();
        let before = self.table.shared.load::<Measure>(&mut pass.seat, HISTORY);
        self.put_in(pass, value);
        if before < after {
            self.add_entry(pass);
            let called = self.end_turn(pass);
            self.wake(called);
        } else {
            let called = self.end_turn(pass);
            self.wake(called);
        }
    }

    // Lets a moment pass, or sleeps once it has looked often while other tickets were called. Tells how often it has looked.
    fn pause<R: Wait>(&self, rt: &R, called: u64, looks: u32) -> u32 {
        if looks < LOOKS {
            spin_loop();
            return looks + 1;
        }
        self.park(rt, called);
        looks
    }

    // Sleeps while this ticket is called.
    fn park<R: Wait>(&self, rt: &R, called: u64) {
        let low = called % 0x1_0000_0000;
        self.table.shared.park(rt, SERVING, low as u32);
    }

    // Wakes those that wait, where a ticket was drawn behind the one that was called.
    fn wake(&self, called: u64) {
        if self.table.shared.peek(TICKETS) != called.wrapping_add(1) {
            self.table.shared.wake_all(SERVING);
        }
    }

    // Takes the value out of the slot.
    fn take_out(&self, pass: &mut Pass<V>) -> V
        requires own { pass.old.seat.table_id ≡ self.now.table.shared.table_id }
        requires full { (value : V) × (pass.old.seat.me.1 ≡ (0, Some value) ∷ []) }
        ensures value { pass.old.seat.me.1 ≡ (0, Some result) ∷ [] }
        ensures empty { pass.new.seat.me ≡ (pass.old.seat.me.0, (0, None) ∷ []) }
        ensures own { pass.new.seat.table_id ≡ pass.old.seat.table_id }
    {
        match self.table.shared.exchange(&mut pass.seat, SLOT, None) {
            Some(value) => value,
            None => unreachable!(),
        }
    }

    // Puts the value into the slot.
    fn put_in(&self, pass: &mut Pass<V>, value: V)
        requires own { pass.old.seat.table_id ≡ self.now.table.shared.table_id }
        requires empty { pass.old.seat.me.1 ≡ (0, None) ∷ [] }
        ensures full { pass.new.seat.me ≡ (pass.old.seat.me.0, (0, Some value) ∷ []) }
        ensures own { pass.new.seat.table_id ≡ pass.old.seat.table_id }
    {
        match self
            .table
            .shared
            .exchange(&mut pass.seat, SLOT, Some(value))
        {
            None => {}
            Some(_) => unreachable!(),
        }
    }

    // Counts the entry by which the value in the slot is longer than what the pass has seen.
    fn add_entry(&self, pass: &mut Pass<V>)
        requires own { pass.old.seat.table_id ≡ self.now.table.shared.table_id }
        requires turn { (in_turn pass.old ≡ true) × ((known pass.old).spent ≡ false) }
        requires longer { (value : V) × (e : V.Item) × (pass.old.seat.me.1 ≡ (0, Some value) ∷ []) × (V.entries value ≡ seen_of pass.old ++ e ∷ []) × (length (V.entries value) < 2 ^ 64) }
        ensures added { (e : V.Item) × (pass.new.seat.me ≡ (adding (known pass.old) e, pass.old.seat.me.1)) × ((value : V) → pass.old.seat.me.1 ≡ (0, Some value) ∷ [] → V.entries value ≡ seen_of pass.old ++ e ∷ []) }
        ensures own { pass.new.seat.table_id ≡ pass.old.seat.table_id }
    {
        self.table
            .shared
            .fetch_add::<Add<V>>(&mut pass.seat, HISTORY, 1);
    }

    // Calls the next ticket, and tells which was called.
    fn end_turn(&self, pass: &mut Pass<V>) -> u64
        requires own { pass.old.seat.table_id ≡ self.now.table.shared.table_id }
        requires turn { (in_turn pass.old ≡ true) × ((known pass.old).spent ≡ false) }
        requires full { (value : V) × (pass.old.seat.me.1 ≡ (0, Some value) ∷ []) × (V.entries value ≡ seen_of pass.old) }
        ensures ended { pass.new.seat.me ≡ (ending (known pass.old), []) }
        ensures own { pass.new.seat.table_id ≡ pass.old.seat.table_id }
    {
        self.table
            .shared
            .fetch_add::<End>(&mut pass.seat, SERVING, 1)
    }
}
