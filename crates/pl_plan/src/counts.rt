ghost use Rattle.std.specs.Prelude.{◌≡◌, ℕ, ◌<◌, ◌≤◌, [], length, OnOk, IfSome, IfNone};
ghost use Rattle.pl_plan.specs.Serving.{served_in};
ghost use Rattle.pl_plan.specs.Counts.{few_goals, count_at, Raises, HasPlace, MayRise, MayFall};

use crate::activity::Activity;
use std::alloc::{AllocError, Global};
use std::marker::Model;

/// Goals of smaller numbers are counted, so that the table stays small.
const FEW_GOALS: u32 = 65_536;

/// How many roots serve each goal, by the goal's number.
#[derive(Drop)]
pub(crate) struct Counts {
    by_goal: Vec<u32>,
}

impl Model for Counts {
    ghost use Rattle.std.specs.Prelude.{ℕ, List};

    ghost Value = { List ℕ };

    ghost view = { λ c. c.by_goal.items };
}

impl Counts {
    pub(crate) fn new(alloc: Global) -> Counts
        ensures { result ≡ [] }
    {
        Counts {
            by_goal: Vec::new(alloc),
        }
    }

    /// How many roots serve the goal, where its number is one of those that are counted.
    pub(crate) fn get(&self, goal: u32) -> Option<u32>
        ensures { IfSome result (λ count. (goal < few_goals) × (count ≡ count_at goal self.now)) }
    {
        if goal >= FEW_GOALS {
            return None;
        }
        Some(self.by_goal.get(goal as usize).copied().unwrap_or(0))
    }

    /// Makes a place for the goal.
    pub(crate) fn make_place(&mut self, goal: Option<u32>) -> Result<(), AllocError>
        ensures same { (n : ℕ) → count_at n self.new ≡ count_at n self.old }
        ensures place { OnOk result (HasPlace goal self.new) }
    {
        match place_of(goal) {
            Some(place) => self.reach(place),
            None => Ok(()),
        }
    }

    // Makes the table so long that it has this place.
    fn reach(&mut self, place: usize) -> Result<(), AllocError>
        requires { place < few_goals }
        ensures same { (n : ℕ) → count_at n self.new ≡ count_at n self.old }
        ensures place { OnOk result (place < length self.new) }
    {
        if place < self.by_goal.len() {
            return Ok(());
        }
        self.by_goal.resize(place + 1, 0)?;
        Ok(())
    }

    /// Counts one more root that serves the goal.
    pub(crate) fn raise(&mut self, goal: Option<u32>)
        requires place { HasPlace goal self.old }
        requires small { MayRise goal self.old }
        ensures { Raises goal self.old self.new }
    {
        if let Some(place) = place_of(goal) {
            self.by_goal[place] += 1;
        }
    }

    /// Counts one root less that serves the goal.
    pub(crate) fn lower(&mut self, goal: Option<u32>)
        requires { MayFall goal self.old }
        ensures { Raises goal self.new self.old }
    {
        if let Some(place) = place_of(goal) {
            self.by_goal[place] -= 1;
        }
    }
}

/// The number of the goal that an activity serves.
pub(crate) fn served_goal(a: &Activity) -> Option<u32>
    ensures { result ≡ served_in a.now }
{
    match a.parent {
        Some(_) => None,
        None => a.goal,
    }
}

// Where the goal is counted, if it is.
fn place_of(goal: Option<u32>) -> Option<usize>
    ensures some { IfSome result (λ place. (goal ≡ Some place) × (place < few_goals)) }
    ensures none { IfNone result (IfSome goal (λ g. few_goals ≤ g)) }
{
    match goal {
        Some(number) if number < FEW_GOALS => Some(number as usize),
        _ => None,
    }
}
