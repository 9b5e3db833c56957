ghost use Rattle.std.specs.Prelude.{◌≡◌, ◌+◌, ℕ, Bool, true};

use crate::told::Told;
use std::marker::Model;

/// Is told of each step as it is taken.
pub trait Ledger: Drop {
    // Whether it was told of so many steps.
    ghost told: { Self → ℕ → Bool };

    fn tick(&mut self)
        ensures { (count : ℕ) → told self.old count ≡ true → told self.new (count + 1) ≡ true };
}

/// Does nothing.
#[derive(Drop)]
pub struct Quiet;

impl Ledger for Quiet {
    ghost told = { λ _ _. true };

    fn tick(&mut self) {}
}

/// A ledger, and how many steps were taken, of which it was told: a number that clauses see, and that has no greatest value.
#[derive(Drop)]
pub struct Steps<L: Ledger> {
    ledger: L,
    taken: Told<bool>,
    // The place at which the walk stands: a guess, on which no answer rests.
    near: usize,
}

impl<L: Ledger> Model for Steps<L> {
    ghost use Rattle.std.specs.Prelude.{◌≡◌, ℕ, true, length};

    ghost Value = { ℕ };

    ghost view = { λ s. length s.taken.items };

    ghost invariant = { λ s. L.told s.ledger (length s.taken.items) ≡ true };
}

impl<L: Ledger> Steps<L> {
    /// No steps yet, with a ledger that was told of none.
    pub fn new(ledger: L) -> Steps<L>
        requires { L.told ledger 0 ≡ true }
        ensures { result ≡ 0 }
    {
        Steps {
            ledger,
            taken: Told::new(),
            near: 0,
        }
    }

    /// One step more, of which the ledger is told.
    pub fn tick(&mut self)
        ensures { self.new ≡ self.old + 1 }
    {
        self.ledger.tick();
        self.taken = self.taken.with(&true);
    }

    /// One step more, by which the walk comes to the next place.
    pub fn pass(&mut self)
        ensures { self.new ≡ self.old + 1 }
    {
        self.tick();
        self.near = self.near.wrapping_add(1);
    }

    /// Notes that the walk came so many places further. It is no step.
    pub fn go_on(&mut self, places: usize)
        ensures { self.new ≡ self.old }
    {
        self.near = self.near.wrapping_add(places);
    }

    /// The place at which the walk stands, for the next call to look there first.
    pub fn near(&self) -> usize {
        self.near
    }

    /// Notes where the walk stands. It is no step.
    pub fn stand_at(&mut self, place: usize)
        ensures { self.new ≡ self.old }
    {
        self.near = place;
    }

    /// The ledger, which was told of each step.
    pub fn ledger(&self) -> &L
        ensures { L.told result.now self.now ≡ true }
    {
        &self.ledger
    }
}
