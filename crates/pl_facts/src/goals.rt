ghost use Rattle.std.specs.Prelude.{◌≡◌, ◌≢◌, ◌↔◌, ◌≤◌, ◌==◌, [], ◌∷◌, ◌++◌, None, length, min, slice_get, All, Contains, IsSome, IsNone, IfSome, OnOk, OnErr};
ghost use Rattle.std.specs.Option.{option_copied};
ghost use Rattle.pl_facts.specs.Goals.{AreDistinct, goal_of, with_dropped};

use crate::goal::Goal;
use pl_lists::Copied;
use std::alloc::{AllocError, Global};
use std::cmp::Reverse;
use std::collections::BTreeMap;
use std::marker::Model;

/// Goals in the order in which they were accepted, each with a number of its own.
#[derive(Drop)]
pub struct Goals {
    goals: Vec<Goal>,
    // The place of each goal by its number, the greatest number first: each node of a map is searched from its first key on, and most look-ups are for new goals.
    places: BTreeMap<Reverse<u32>, usize>,
}

impl Model for Goals {
    ghost use Rattle.std.specs.Prelude.{List};
    ghost use Rattle.pl_facts.specs.declared.goal.Goal.{Goal};
    ghost use Rattle.pl_facts.specs.Places.{AreIndexed};

    ghost Value = { List Goal };

    ghost view = { λ g. g.goals.items };

    ghost invariant = { λ g. AreIndexed g.places g.goals.items };
}

impl Goals {
    /// No goals.
    pub fn new(alloc: Global) -> Goals
        ensures { result ≡ [] }
    {
        Goals {
            goals: Vec::new(alloc),
            places: BTreeMap::new(alloc),
        }
    }

    /// Puts `goal` at the end.
    pub fn push(&mut self, goal: Goal) -> Result<(), AllocError>
        requires { goal_of goal.number self.old ≡ None }
        ensures ok { OnOk result (self.new ≡ self.old ++ goal ∷ []) }
        ensures err { OnErr result (self.new ≡ self.old) }
    {
        self.goals.reserve(1)?;
        self.places.insert(Reverse(goal.number), self.goals.len())?;
        self.goals.push(goal).unwrap();
        Ok(())
    }

    /// The goal that has the number.
    pub fn get(&self, number: u32) -> Option<&Goal>
        ensures goal { option_copied result ≡ goal_of number self.now }
        ensures none { IsNone result ↔ All (λ g. g.number ≢ number) self.now }
        ensures some { IfSome result (λ g. Contains self.now g.now × (g.now.number ≡ number)) }
    {
        let place = self.places.get(&Reverse(number))?;
        Some(&self.goals[*place])
    }

    /// Marks the goal that has the number as dropped.
    pub fn drop_goal(&mut self, number: u32)
        requires { IsSome (goal_of number self.old) }
        ensures { self.new ≡ with_dropped number self.old }
    {
        let place = self.places[&Reverse(number)];
        self.goals[place].dropped = true;
    }

    /// How many goals there are; the count stands still at its type's end.
    pub fn len(&self) -> u32
        ensures len { result ≡ min (length self.now) 4294967295 }
        ensures distinct { AreDistinct self.now }
    {
        self.goals.len().min(u32::MAX as usize) as u32
    }

    /// Whether no goal was ever put: a dropped one counts.
    pub fn is_empty(&self) -> bool
        ensures { result ≡ (length self.now == 0) }
    {
        self.goals.is_empty()
    }

    /// All goals.
    pub fn as_slice(&self) -> &[Goal]
        ensures goals { result.now ≡ self.now }
        ensures distinct { AreDistinct self.now }
    {
        &self.goals
    }

    /// The goal at the place, counted from 0.
    pub fn nth(&self, place: u32) -> Option<&Goal>
        ensures goal { option_copied result ≡ slice_get self.now place }
        ensures none { IsNone result ↔ (length self.now ≤ place) }
    {
        self.goals.get(place as usize)
    }
}

impl Copied for Goals {
    fn copy(&self, alloc: Global) -> Result<Goals, AllocError> {
        let mut all = Goals::new(alloc);
        for goal in &self.goals {
            all.push(goal.copy(alloc)?)?;
        }
        Ok(all)
    }
}
