//! How late activities start at most, noted by groups of ids. Most activities of a long run have started long ago, so who
//! seeks those that start late passes over whole groups.
ghost use Rattle.std.specs.Prelude.{◌≡◌, ℕ, ◌<◌, ◌≤◌, [], length, take, All, OnOk};
ghost use Rattle.pl_plan.specs.Activities.{AreRising};
ghost use Rattle.pl_plan.specs.Latest.{group_of, latest_in, HasNote};

use crate::activity::Activity;
use std::alloc::{AllocError, Global};
use std::marker::Model;

/// How many ids are a group.
const GROUP: u32 = 32;

/// Groups of smaller numbers are noted, so that the table stays small.
const FEW_GROUPS: usize = 65_536;

/// The table grows by so many groups at once, at most. It stays empty in a plan of one activity with a late id.
const MOST_NEW: usize = 64;

/// For each group, a start that none of its activities passes.
#[derive(Drop)]
pub(crate) struct Latest {
    starts: Vec<u32>,
    // Groups of this number and greater ones are not noted.
    limit: usize,
}

impl Model for Latest {
    ghost use Rattle.std.specs.Prelude.{◌≤◌, length};
    ghost use Rattle.pl_plan.specs.Latest.{Notes};

    ghost Value = { Notes };

    ghost view = { λ l. record { starts = l.starts.items; limit = l.limit } };

    ghost invariant = { λ l. length l.starts.items ≤ l.limit };
}

/// The group of an id.
pub(crate) fn group_of(id: u32) -> usize
    ensures { result ≡ group_of id }
{
    (id / GROUP) as usize
}

fn count_all_before(activities: &[Activity], group: usize) -> usize
    requires { AreRising activities.now }
    ensures bound { result ≤ length activities.now }
    ensures before { All (λ a. group_of a.id < group) (take result activities.now) }
{
    activities.partition_point(|a| group_of(a.id) < group)
}

/// How many of the activities are in groups before this one. A look at the first one may show that none is.
pub(crate) fn count_before(activities: &[Activity], group: usize) -> usize
    requires { AreRising activities.now }
    ensures bound { result ≤ length activities.now }
    ensures before { All (λ a. group_of a.id < group) (take result activities.now) }
{
    match activities.first() {
        Some(a) if group <= group_of(a.id) => 0,
        _ => count_all_before(activities, group),
    }
}

impl Latest {
    pub(crate) fn new(alloc: Global) -> Latest
        ensures { result.starts ≡ [] }
    {
        Latest {
            starts: Vec::new(alloc),
            limit: FEW_GROUPS,
        }
    }

    /// Makes a place for the group's note, or gives up the notes of such groups.
    pub(crate) fn make_note(&mut self, group: usize) -> Result<(), AllocError>
        ensures same { (n : ℕ) → latest_in n self.new ≡ latest_in n self.old }
        ensures longer { length self.old.starts ≤ length self.new.starts }
        ensures fewer { self.new.limit ≤ self.old.limit }
        ensures place { OnOk result (HasNote group self.new) }
    {
        let count = self.starts.len();
        if group < count || group >= self.limit {
            return Ok(());
        }
        if group - count >= MOST_NEW {
            self.limit = count;
            return Ok(());
        }
        self.starts.resize(group + 1, 0)?;
        Ok(())
    }

    /// Notes the start of an activity of the group.
    pub(crate) fn note(&mut self, group: usize, start: u32)
        requires { HasNote group self.old }
        ensures later { (n : ℕ) → latest_in n self.old ≤ latest_in n self.new }
        ensures noted { group < self.old.limit → start ≤ latest_in group self.new }
        ensures length { length self.new.starts ≡ length self.old.starts }
        ensures limit { self.new.limit ≡ self.old.limit }
    {
        if group < self.limit {
            self.starts[group] = self.starts[group].max(start);
        }
    }

    /// The first group from a group on of which activities may start at the moment or later.
    pub(crate) fn first_late(&self, from: usize, moment: u32) -> usize
        ensures low { from ≤ result }
        ensures passed { (n : ℕ) → from ≤ n → n < result → (n < self.now.limit) × (latest_in n self.now < moment) }
    {
        let mut group = from;
        'groups: while group < self.starts.len() {
            if self.starts[group] >= moment {
                return group;
            }
            group += 1;
        }
        group
    }
}
