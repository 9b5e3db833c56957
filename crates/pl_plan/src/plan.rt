ghost use Rattle.std.specs.Prelude.{◌≡◌, ◌≢◌, ◌↔◌, All, IsNone, ◌+◌, ◌-◌, ◌^◌, ◌<◌, ◌≤◌, [], length, take, drop, slice_get, OnOk, OnErr, IfOk, IfErr, Some, None};
ghost use Rattle.std.specs.Option.{option_copied};
ghost use Rattle.pl_plan.specs.Activities.{AreRising, IsLive, KeepsPlace, activity_of, placed, without, exchanged, with_end, measured_of};
ghost use Rattle.pl_plan.specs.Indexed.{AreIndexed};
ghost use Rattle.pl_plan.specs.Counts.{AreCounted};
ghost use Rattle.pl_plan.specs.Places.{IsPlaceOf, IsGapFor};
ghost use Rattle.pl_plan.specs.Latest.{AreNoted};

use crate::activity::Activity;
use crate::counts::{Counts, served_goal};
use crate::families::Families;
use crate::latest::{Latest, count_before, group_of};
use crate::searching::search;
use pl_lists::Copied;
use std::alloc::{AllocError, Global};
use std::marker::Model;
use std::mem;

/// A plan: the live activities, which contracts see by rising id.
#[derive(Drop)]
pub struct Plan {
    activities: Vec<Activity>,
    families: Families,
    counts: Counts,
    latest: Latest,
}

impl Model for Plan {
    ghost use Rattle.std.specs.Prelude.{◌<◌, ◌^◌, length};
    ghost use Rattle.pl_plan.specs.State.{PlanValue};

    ghost Value = { PlanValue };

    ghost use Rattle.pl_plan.specs.Indexed.{AreIndexed};
    ghost use Rattle.pl_plan.specs.Counts.{AreCounted};
    ghost use Rattle.pl_plan.specs.Latest.{AreNoted};

    ghost view = { λ p. record { activities = p.activities.items } };

    ghost invariant = { λ p. AreIndexed p.activities.items p.families.children p.families.servers × (length p.activities.items < 2 ^ 32) × AreCounted p.activities.items p.counts × AreNoted p.activities.items p.latest };
}

impl Plan {
    /// No activities.
    pub fn new(alloc: Global) -> Plan
        ensures { result.activities ≡ [] }
    {
        Plan {
            activities: Vec::new(alloc),
            families: Families::new(alloc),
            counts: Counts::new(alloc),
            latest: Latest::new(alloc),
        }
    }

    /// Puts an activity in its place.
    pub fn put(&mut self, a: Activity) -> Result<(), AllocError>
        requires { activity_of a.id self.old.activities ≡ None }
        ensures ok { OnOk result (self.new.activities ≡ placed a self.old.activities) }
        ensures err { OnErr result (self.new ≡ self.old) }
    {
        if self.activities.len() >= u32::MAX as usize {
            return Err(AllocError);
        }
        match self.search(a.id) {
            Ok(_) => unreachable!(),
            Err(at) => self.put_at(at, a),
        }
    }

    /// Takes the activity of this id out.
    pub fn take(&mut self, id: u32) -> Option<Activity>
        ensures value { result ≡ activity_of id self.old.activities }
        ensures none { IsNone result ↔ All (λ a. a.id ≢ id) self.old.activities }
        ensures after { self.new.activities ≡ without id self.old.activities }
    {
        match self.search(id) {
            Ok(at) => Some(self.take_at(at, id)),
            Err(_) => None,
        }
    }

    fn put_at(&mut self, at: usize, a: Activity) -> Result<(), AllocError>
        requires few { length self.old.activities + 1 < 2 ^ 32 }
        requires gap { IsGapFor a.id self.old.activities at }
        ensures ok { OnOk result (self.new.activities ≡ placed a self.old.activities) }
        ensures err { OnErr result (self.new ≡ self.old) }
    {
        let goal = served_goal(&a);
        let group = group_of(a.id);
        self.activities.reserve(1)?;
        self.counts.make_place(goal)?;
        self.latest.make_note(group)?;
        self.families.enter(&a)?;
        self.latest.note(group, a.start);
        self.activities.insert(at, a).unwrap();
        self.counts.raise(goal);
        Ok(())
    }

    fn take_at(&mut self, at: usize, id: u32) -> Activity
        requires { IsPlaceOf id self.old.activities at }
        ensures value { activity_of id self.old.activities ≡ Some result }
        ensures after { self.new.activities ≡ without id self.old.activities }
    {
        let a = self.activities.remove(at);
        self.families.leave(&a);
        self.counts.lower(served_goal(&a));
        a
    }

    /// Puts an activity in the place of the one of its id, and answers that one. It takes no memory.
    pub fn exchange(&mut self, a: Activity) -> Activity
        requires live { IsLive a.id self.old.activities }
        requires place { KeepsPlace a self.old.activities }
        ensures value { activity_of a.id self.old.activities ≡ Some result }
        ensures after { self.new.activities ≡ exchanged a self.old.activities }
    {
        let at = self.place(a.id);
        let group = group_of(a.id);
        self.latest.note(group, a.start);
        mem::replace(&mut self.activities[at], a)
    }

    /// Notes the moment at which the activity of this id ends. It takes no memory.
    pub fn set_end(&mut self, id: u32, moment: u32)
        requires { IsLive id self.old.activities }
        ensures { self.new.activities ≡ with_end id moment self.old.activities }
    {
        let at = self.place(id);
        self.activities[at].measured = Some(moment);
    }

    /// The moment at which the activity of this id ends, where that was measured.
    pub fn measured(&self, id: u32) -> Option<u32>
        ensures { result ≡ measured_of id self.now.activities }
    {
        self.get(id)?.measured
    }

    /// The activity of this id.
    pub fn get(&self, id: u32) -> Option<&Activity>
        ensures value { option_copied result ≡ activity_of id self.now.activities }
        ensures none { IsNone result ↔ All (λ a. a.id ≢ id) self.now.activities }
    {
        match self.search(id) {
            Ok(at) => Some(&self.activities[at]),
            Err(_) => None,
        }
    }

    /// How many activities there are.
    pub fn len(&self) -> u32
        ensures len { result ≡ length self.now.activities }
        ensures rising { AreRising self.now.activities }
    {
        self.activities.len() as u32
    }

    /// The activity at this place by rising id, places counted from 0.
    pub fn nth(&self, place: u32) -> Option<&Activity>
        ensures value { option_copied result ≡ slice_get self.now.activities place }
        ensures none { IsNone result ↔ (length self.now.activities ≤ place) }
    {
        self.activities.get(place as usize)
    }

    /// All activities.
    pub fn activities(&self) -> &[Activity]
        ensures value { result.now ≡ self.now.activities }
        ensures rising { AreRising self.now.activities }
        ensures few { length self.now.activities < 2 ^ 32 }
    {
        &self.activities
    }

    /// Passes over activities that start before a moment: the place of another activity behind them, or of none. Where many start
    /// before it, most of them are passed over.
    pub fn pass_early(&self, from: usize, moment: u32) -> usize
        requires { from ≤ length self.now.activities }
        ensures low { from ≤ result }
        ensures bound { result ≤ length self.now.activities }
        ensures early { All (λ a. a.start < moment) (take (result - from) (drop from self.now.activities)) }
    {
        let others = &self.activities[from..];
        match others.first() {
            Some(first) => {
                let group = self.latest.first_late(group_of(first.id), moment);
                from + count_before(others, group)
            }
            None => from,
        }
    }

    pub(crate) fn families(&self) -> &Families
        ensures { AreIndexed self.now.activities result.now.children result.now.servers }
    {
        &self.families
    }

    pub(crate) fn counts(&self) -> &Counts
        ensures { AreCounted self.now.activities result.now }
    {
        &self.counts
    }

    // Where the activity of this id is.
    pub(crate) fn place(&self, id: u32) -> usize
        requires { IsLive id self.now.activities }
        ensures { IsPlaceOf id self.now.activities result }
    {
        match self.search(id) {
            Ok(at) => at,
            Err(_) => unreachable!(),
        }
    }

    // Where the activity of this id is, or where it would go.
    fn search(&self, id: u32) -> Result<usize, usize>
        ensures found { IfOk result (IsPlaceOf id self.now.activities) }
        ensures absent { IfErr result (IsGapFor id self.now.activities) }
    {
        search(&self.activities, id)
    }
}

impl Copied for Plan {
    fn copy(&self, alloc: Global) -> Result<Plan, AllocError> {
        let mut plan = Plan::new(alloc);
        for activity in &self.activities {
            plan.put(activity.copy(alloc)?)?;
        }
        Ok(plan)
    }
}
